//! The named classes of bytes, in the C locale.

ghost use Rattle.std.specs.Prelude.{◌≡◌};
ghost use Rattle.glob_pattern.specs.Pieces.{in_class};

/// `[:alpha:]` and the others.
#[derive(Clone, Copy, Debug, PartialEq, Eq)]
pub enum Class {
    Alnum,
    Alpha,
    Blank,
    Cntrl,
    Digit,
    Graph,
    Lower,
    Print,
    Punct,
    Space,
    Upper,
    Xdigit,
}

/// Whether a byte belongs to a class.
pub fn in_class(class: Class, b: u8) -> bool
    ensures { result ≡ in_class class b }
{
    match class {
        Class::Alnum => b.is_ascii_alphanumeric(),
        Class::Alpha => b.is_ascii_alphabetic(),
        Class::Blank => b == b' ' || b == b'\t',
        Class::Cntrl => b.is_ascii_control(),
        Class::Digit => b.is_ascii_digit(),
        Class::Graph => b.is_ascii_graphic(),
        Class::Lower => b.is_ascii_lowercase(),
        Class::Print => b == b' ' || b.is_ascii_graphic(),
        Class::Punct => b.is_ascii_punctuation(),
        Class::Space => b == b' ' || (9 <= b && b <= 13),
        Class::Upper => b.is_ascii_uppercase(),
        Class::Xdigit => b.is_ascii_hexdigit(),
    }
}
