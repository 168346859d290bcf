//! Formats that are given byte by byte.

ghost use Rattle.std.specs.Prelude.{◌≡◌, ℕ, List, [], ◌∷◌, Option};
ghost use Rattle.fmt_print.specs.Check as check;
ghost use Rattle.fmt_print.specs.Escapes as escapes;
ghost use Rattle.fmt_print.specs.Pieces as pieces;

use crate::escapes::{is_octal, letter_escape};
use crate::pieces::{Flags, is_digit, is_flag, kind_of, takes, with_flag};

/// What was seen of the piece that is under way.
#[derive(Clone, Copy, Debug, PartialEq, Eq)]
enum State {
    /// Nothing at all.
    Start,
    Plain,
    /// A backslash.
    Escape,
    /// An octal escape of this value, of one digit.
    Octal(u8),
    /// One of two digits.
    OctalTwo(u16),
    Percent,
    Flagged(Flags),
    /// Flags and a width, which may have no digit yet.
    Wide(Flags, u16),
    /// Flags, a width, a dot and a precision, which may have no digit yet.
    Precise(Flags, u16),
    /// No format begins so.
    Refused,
}

/// Tells of bytes whether they are a format of `printf`. It takes no memory.
#[derive(Clone, Copy, Debug, PartialEq, Eq)]
pub struct FormatCheck {
    state: State,
}

impl FormatCheck {
    /// Before the first byte.
    pub fn new() -> FormatCheck
        ensures { (text : List ℕ) → check.accepts result text ≡ pieces.is_format text }
    {
        FormatCheck {
            state: State::Start,
        }
    }

    /// The next byte.
    pub fn step(&mut self, byte: u8)
        ensures { (rest : List ℕ) → check.accepts self.new rest ≡ check.accepts self.old (byte ∷ rest) }
    {
        self.state = stepped(self.state, byte);
    }

    /// Whether the bytes so far are a format.
    #[tactic(auto, using(crate::proofs::Checks::whole_none))]
    pub fn is_format(&self) -> bool
        ensures { result ≡ check.accepts self.now [] }
    {
        match self.state {
            State::Start | State::Plain => true,
            State::Octal(value) => u16::from(value) <= 255,
            State::OctalTwo(value) => value <= 255,
            _ => false,
        }
    }
}

fn stepped(state: State, byte: u8) -> State
    ensures { (rest : List ℕ) →
        check.accepts_in result rest ≡ check.accepts_in state (byte ∷ rest) }
{
    match state {
        State::Start => started(byte),
        State::Plain => plain(byte),
        State::Escape => escape(byte),
        State::Octal(value) => octal(value, byte),
        State::OctalTwo(value) => octal_two(value, byte),
        State::Percent => percent(byte),
        State::Flagged(flags) => flagged(flags, byte),
        State::Wide(flags, width) => wide(flags, width, byte),
        State::Precise(flags, precision) => precise(flags, precision, byte),
        State::Refused => State::Refused,
    }
}

fn started(byte: u8) -> State
    ensures { (rest : List ℕ) → check.accepts_in result rest ≡ pieces.is_format (byte ∷ rest) }
{
    if byte == b'-' {
        State::Refused
    } else {
        plain(byte)
    }
}

/// The first byte of a piece.
#[tactic(auto, using(crate::proofs::Checks::whole_more))]
fn plain(byte: u8) -> State
    ensures { (rest : List ℕ) → check.accepts_in result rest ≡ check.reads_whole (byte ∷ rest) }
{
    match byte {
        b'\\' => State::Escape,
        b'%' => State::Percent,
        _ => State::Plain,
    }
}

fn escape(byte: u8) -> State
    ensures { (rest : List ℕ) →
        check.accepts_in result rest ≡ check.goes_on (pieces.escape_at (byte ∷ rest)) }
{
    if is_octal(byte) {
        return State::Octal(byte - b'0');
    }
    match letter_escape(byte) {
        Some(_) => State::Plain,
        None => State::Refused,
    }
}

/// The second digit of an octal escape, or the byte behind it.
fn octal(value: u8, byte: u8) -> State
    ensures { (rest : List ℕ) →
        check.accepts_in result rest ≡ check.octal_goes_on (escapes.more_octal value (byte ∷ rest)) }
{
    if is_octal(byte) {
        State::OctalTwo(8 * u16::from(value) + u16::from(byte - b'0'))
    } else {
        plain(byte)
    }
}

/// The third digit of an octal escape, or the byte behind it.
fn octal_two(value: u16, byte: u8) -> State
    ensures { (rest : List ℕ) →
        check.accepts_in result rest ≡ check.octal_ends (escapes.more_octal value (byte ∷ rest)) }
{
    if is_octal(byte) {
        if 8 * u32::from(value) + u32::from(byte - b'0') <= 255 {
            State::Plain
        } else {
            State::Refused
        }
    } else if value <= 255 {
        plain(byte)
    } else {
        State::Refused
    }
}

fn percent(byte: u8) -> State
    ensures { (rest : List ℕ) →
        check.accepts_in result rest ≡ check.goes_on (pieces.percent_at (byte ∷ rest)) }
{
    match byte {
        b'%' | b'b' => State::Plain,
        _ => {
            let flags = Flags {
                left: false,
                zero: false,
                plus: false,
                space: false,
            };
            flagged(flags, byte)
        }
    }
}

fn flagged(flags: Flags, byte: u8) -> State
    ensures { (rest : List ℕ) →
        check.accepts_in result rest ≡ check.flags_go_on (pieces.flags_from flags (byte ∷ rest)) }
{
    if is_flag(byte) {
        State::Flagged(with_flag(flags, byte))
    } else {
        wide(flags, 0, byte)
    }
}

/// A digit of a width, or the byte behind it.
fn wide(flags: Flags, width: u16, byte: u8) -> State
    ensures { (rest : List ℕ) →
        check.accepts_in result rest ≡ check.width_goes_on flags (pieces.size_from width (byte ∷ rest)) }
{
    if is_digit(byte) {
        let more = 10 * u32::from(width) + u32::from(byte - b'0');
        if more > 9999 {
            State::Refused
        } else {
            State::Wide(flags, more as u16)
        }
    } else if byte == b'.' {
        State::Precise(flags, 0)
    } else {
        letter(flags, byte)
    }
}

/// A digit of a precision, or the letter.
fn precise(flags: Flags, precision: u16, byte: u8) -> State
    ensures { (rest : List ℕ) →
        check.accepts_in result rest ≡ check.precision_goes_on flags (pieces.size_from precision (byte ∷ rest)) }
{
    if is_digit(byte) {
        let more = 10 * u32::from(precision) + u32::from(byte - b'0');
        if more > 9999 {
            State::Refused
        } else {
            State::Precise(flags, more as u16)
        }
    } else {
        letter(flags, byte)
    }
}

/// The letter of a conversion.
fn letter(flags: Flags, byte: u8) -> State
    ensures { (width : ℕ) (precision : Option ℕ) (rest : List ℕ) →
        check.accepts_in result rest ≡ check.goes_on (pieces.letter_at flags width precision (byte ∷ rest)) }
{
    match kind_of(byte) {
        Some(kind) if takes(kind, flags) => State::Plain,
        _ => State::Refused,
    }
}
