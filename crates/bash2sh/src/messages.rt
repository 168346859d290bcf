//! The lines that the program says.

ghost use Rattle.std.specs.Prelude.{◌≡◌, [], ◌∷◌, ◌++◌, codes, decimal};
ghost use Rattle.world_json.specs.Judging.{reason_word};
ghost use Rattle.bash2sh.specs.Answers.{bad_world_line};
ghost use Rattle.span_text.specs.Streams.{Wrote};
ghost use Rattle.bash2sh.specs.Answers.{Said, refused_line, refusal_tail, refusal_word};

use itoa::Buffer;
use span_text::{Failed, Place, Sink, write_all};
use world_json::Reason;

/// Writes a line; a failure leaves a front of it.
pub fn say<E: Sink>(err: &mut E, line: &[u8])
    ensures { Said (E.held err.old) (E.held err.new) (E.faults err.old) (E.faults err.new) line.now }
{
    let _ = write_all(err, line);
}

/// Says how the program is called.
pub fn say_usage<E: Sink>(err: &mut E)
    ensures { Said (E.held err.old) (E.held err.new) (E.faults err.old) (E.faults err.new) (codes "bash2sh: usage\n") }
{
    say(err, b"bash2sh: usage\n");
}

/// Says that the script could not be read.
pub fn say_read_fault<E: Sink>(err: &mut E)
    ensures { Said (E.held err.old) (E.held err.new) (E.faults err.old) (E.faults err.new) (codes "bash2sh: read fault\n") }
{
    say(err, b"bash2sh: read fault\n");
}

/// Says that the compiled script could not be written.
pub fn say_write_fault<E: Sink>(err: &mut E)
    ensures { Said (E.held err.old) (E.held err.new) (E.faults err.old) (E.faults err.new) (codes "bash2sh: write fault\n") }
{
    say(err, b"bash2sh: write fault\n");
}

/// Says that the script has too many bytes.
pub fn say_too_long<E: Sink>(err: &mut E)
    ensures { Said (E.held err.old) (E.held err.new) (E.faults err.old) (E.faults err.new) (codes "bash2sh: too long\n") }
{
    say(err, b"bash2sh: too long\n");
}

/// Says that there was too little memory.
pub fn say_out_of_memory<E: Sink>(err: &mut E)
    ensures { Said (E.held err.old) (E.held err.new) (E.faults err.old) (E.faults err.new) (codes "bash2sh: out of memory\n") }
{
    say(err, b"bash2sh: out of memory\n");
}

/// Why a script is refused.
#[derive(Clone, Copy, Debug, PartialEq, Eq)]
pub enum Refusal {
    /// It is no text of sh.
    ShSyntax,
    /// It has a form that isn't built yet.
    NotYet,
}

impl Refusal {
    /// The word for it in a message.
    fn word(self) -> &'static str
        ensures { result.now ≡ refusal_word self }
    {
        match self {
            Refusal::ShSyntax => "sh-syntax",
            Refusal::NotYet => "not-yet",
        }
    }
}

/// Writes the line that refuses a script at this place.
pub fn say_refused<E: Sink>(err: &mut E, refusal: Refusal, place: Place)
    ensures { Said (E.held err.old) (E.held err.new) (E.faults err.old) (E.faults err.new) (refused_line refusal place.line place.column) }
{
    let _ = write_refused(err, refusal, place);
}

fn write_refused<E: Sink>(err: &mut E, refusal: Refusal, place: Place) -> Result<(), Failed>
    ensures { Wrote (E.held err.old) (E.held err.new) (E.faults err.old) (E.faults err.new) result (refused_line refusal place.line place.column) }
{
    write_all(err, b"bash2sh: ")?;
    write_place(err, place)?;
    write_refusal(err, refusal)
}

/// `: not-yet`, and the end of the line.
fn write_refusal<E: Sink>(err: &mut E, refusal: Refusal) -> Result<(), Failed>
    ensures { Wrote (E.held err.old) (E.held err.new) (E.faults err.old) (E.faults err.new) result (refusal_tail refusal) }
{
    write_all(err, b": ")?;
    write_all(err, refusal.word().as_bytes())?;
    write_all(err, b"\n")
}

/// `2:1`
fn write_place<E: Sink>(err: &mut E, place: Place) -> Result<(), Failed>
    ensures { Wrote (E.held err.old) (E.held err.new) (E.faults err.old) (E.faults err.new) result (decimal place.line ++ 58 ∷ decimal place.column) }
{
    write_number(err, place.line)?;
    write_all(err, b":")?;
    write_number(err, place.column)
}

fn write_number<E: Sink>(err: &mut E, n: u32) -> Result<(), Failed>
    ensures { Wrote (E.held err.old) (E.held err.new) (E.faults err.old) (E.faults err.new) result (decimal n) }
{
    let mut buffer = Buffer::new();
    write_all(err, buffer.format(n).as_bytes())
}

/// Says which field of a job is bad, and why.
pub fn say_bad_world<E: Sink>(err: &mut E, pointer: &[u8], reason: Reason)
    ensures { Said (E.held err.old) (E.held err.new) (E.faults err.old) (E.faults err.new) (bad_world_line pointer.now reason) }
{
    let _ = write_bad_world(err, pointer, reason);
}

fn write_bad_world<E: Sink>(err: &mut E, pointer: &[u8], reason: Reason) -> Result<(), Failed>
    ensures { Wrote (E.held err.old) (E.held err.new) (E.faults err.old) (E.faults err.new) result (bad_world_line pointer.now reason) }
{
    write_all(err, b"bash2sh: ")?;
    write_all(err, pointer)?;
    write_reason(err, reason)
}

/// `: reserved`
fn write_reason<E: Sink>(err: &mut E, reason: Reason) -> Result<(), Failed>
    ensures { Wrote (E.held err.old) (E.held err.new) (E.faults err.old) (E.faults err.new) result (codes ": " ++ (reason_word reason ++ 10 ∷ [])) }
{
    write_all(err, b": ")?;
    write_all(err, reason.word().as_bytes())?;
    write_all(err, b"\n")
}
