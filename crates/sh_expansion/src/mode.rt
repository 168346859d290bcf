//! What a word is expanded for, and how a part of it stands there (POSIX XCU 2.6).

ghost use Rattle.std.specs.Prelude.{◌≡◌};
ghost use Rattle.sh_meaning.specs.Modes as modes;
ghost use Rattle.sh_expansion.specs.Views.{listing_of, mode_of, purpose_of};

use span_text::Mark;

/// What a word is expanded for.
#[derive(Clone, Copy, Debug, PartialEq, Eq)]
pub enum Purpose {
    /// Fields: the words of a command, and of `for`.
    Fields,
    /// One text: the value of an assignment, the word of `case`, a pattern, the word of a redirection.
    Single,
    /// One text: the body of a here-document, where all stands as between double quotes (2.7.4).
    Body,
    /// One text: an expansion in arithmetic (2.6.4).
    Operand,
}

impl Purpose {
    /// Between the double quotes of `".."`.
    pub fn in_quotes(self) -> Purpose
        ensures { purpose_of result ≡ modes.purpose_in_quotes (purpose_of self) }
    {
        match self {
            Purpose::Fields => Purpose::Fields,
            Purpose::Single | Purpose::Operand => Purpose::Single,
            Purpose::Body => Purpose::Body,
        }
    }

    /// For one text, as the word of `${a=w}` is.
    pub fn single(self) -> Purpose
        ensures { purpose_of result ≡ modes.single (purpose_of self) }
    {
        match self {
            Purpose::Fields | Purpose::Single => Purpose::Single,
            Purpose::Body => Purpose::Body,
            Purpose::Operand => Purpose::Operand,
        }
    }
}

/// How a part stands.
#[derive(Clone, Copy, Debug, PartialEq, Eq)]
pub enum Mode {
    /// Unquoted; the mark is that of bytes that stand for themselves, which in the word of `${a-w}` are its value.
    Bare(Purpose, Mark),
    /// Between double quotes.
    Double(Purpose),
}

impl Mode {
    /// The words of a command.
    pub fn fields() -> Mode
        ensures { mode_of result ≡ modes.in_fields }
    {
        Mode::Bare(Purpose::Fields, Mark::Written)
    }

    /// The value of an assignment.
    pub fn value() -> Mode
        ensures { mode_of result ≡ modes.in_value }
    {
        Mode::Bare(Purpose::Single, Mark::Written)
    }

    /// The pattern of `${a%w}`, and one of `case`, which has quotes of its own.
    pub fn pattern() -> Mode
        ensures { mode_of result ≡ modes.in_pattern }
    {
        Mode::Bare(Purpose::Single, Mark::Written)
    }

    /// An expansion in arithmetic.
    pub fn operand() -> Mode
        ensures { mode_of result ≡ modes.in_operand }
    {
        Mode::Bare(Purpose::Operand, Mark::Value)
    }

    /// The parts of `".."`.
    pub fn in_quotes(self) -> Mode
        ensures { mode_of result ≡ modes.in_quotes (mode_of self) }
    {
        match self {
            Mode::Bare(purpose, _) | Mode::Double(purpose) => Mode::Double(purpose.in_quotes()),
        }
    }

    /// The word of `${a-w}` and of `${a+w}`.
    pub fn in_fill(self) -> Mode
        ensures { mode_of result ≡ modes.in_fill (mode_of self) }
    {
        match self {
            Mode::Bare(purpose, _) => Mode::Bare(purpose, Mark::Value),
            Mode::Double(purpose) => Mode::Double(purpose),
        }
    }

    /// The word of `${a=w}`, which is assigned.
    pub fn in_assigning(self) -> Mode
        ensures { mode_of result ≡ modes.in_assigning (mode_of self) }
    {
        match self {
            Mode::Bare(purpose, _) => Mode::Bare(purpose.single(), Mark::Value),
            Mode::Double(purpose) => Mode::Double(purpose.single()),
        }
    }

    /// The mark of bytes that stand for themselves.
    pub fn plain_mark(self) -> Mark
        ensures { result ≡ modes.plain_mark (mode_of self) }
    {
        match self {
            Mode::Bare(_, mark) => mark,
            Mode::Double(_) => Mark::Quoted,
        }
    }

    /// The mark of the bytes of an expansion.
    pub fn value_mark(self) -> Mark
        ensures { result ≡ modes.value_mark (mode_of self) }
    {
        match self {
            Mode::Bare(_, _) => Mark::Value,
            Mode::Double(_) => Mark::Quoted,
        }
    }

    /// What `$@` gives.
    pub fn listing_at(self) -> Listing
        ensures { listing_of result ≡ modes.listing_at (mode_of self) }
    {
        match self {
            Mode::Bare(Purpose::Fields, _) | Mode::Double(Purpose::Fields) => Listing::Members,
            Mode::Bare(_, _) | Mode::Double(_) => Listing::Nowhere,
        }
    }

    /// What `$*` gives.
    pub fn listing_star(self) -> Listing
        ensures { listing_of result ≡ modes.listing_star (mode_of self) }
    {
        match self {
            Mode::Bare(Purpose::Fields, _) => Listing::Members,
            Mode::Double(Purpose::Fields | Purpose::Single) => Listing::Joined,
            Mode::Bare(_, _) | Mode::Double(_) => Listing::Nowhere,
        }
    }
}

/// What a list (2.5.2) gives where it stands.
#[derive(Clone, Copy, Debug, PartialEq, Eq)]
pub enum Listing {
    /// Each member is a field, or is split by itself.
    Members,
    /// One text, with the first byte of IFS between the members.
    Joined,
    /// Shells don't agree on it there.
    Nowhere,
}
