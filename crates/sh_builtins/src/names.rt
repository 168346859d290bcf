//! The names of built-ins.

ghost use Rattle.std.specs.Prelude.{◌≡◌};
ghost use Rattle.span_text.specs.KnownNames.{same_text};
ghost use Rattle.sh_meaning.specs.builtins.Names as names;

use sh_meaning::Builtin;

/// Whether a text is this word.
pub fn is_word(word: &[u8], text: &[u8]) -> bool
    ensures { result ≡ same_text word.now text.now }
{
    word == text
}

/// The special built-in of this name (POSIX XCU 2.14).
#[tactic(auto, unfolding(sh_meaning::specs::builtins::Names::special_builtin))]
pub fn special_builtin(name: &[u8]) -> Option<Builtin>
    ensures { result ≡ names.special_builtin name.now }
{
    if is_word(b":", name) {
        Some(Builtin::Colon)
    } else if is_word(b"break", name) {
        Some(Builtin::Break)
    } else if is_word(b"continue", name) {
        Some(Builtin::Continue)
    } else if is_word(b"return", name) {
        Some(Builtin::Return)
    } else if is_word(b"exit", name) {
        Some(Builtin::Exit)
    } else if is_word(b"set", name) {
        Some(Builtin::Set)
    } else if is_word(b"shift", name) {
        Some(Builtin::Shift)
    } else if is_word(b"export", name) {
        Some(Builtin::Export)
    } else if is_word(b"unset", name) {
        Some(Builtin::Unset)
    } else {
        None
    }
}

/// The built-in of this name that isn't special.
#[tactic(auto, unfolding(sh_meaning::specs::builtins::Names::plain_builtin))]
fn plain_builtin(name: &[u8]) -> Option<Builtin>
    ensures { result ≡ names.plain_builtin name.now }
{
    if is_word(b"true", name) {
        Some(Builtin::True)
    } else if is_word(b"false", name) {
        Some(Builtin::False)
    } else if is_word(b"printf", name) {
        Some(Builtin::Printf)
    } else if is_word(b"read", name) {
        Some(Builtin::Read)
    } else if is_word(b"test", name) {
        Some(Builtin::Test)
    } else if is_word(b"[", name) {
        Some(Builtin::Bracket)
    } else if is_word(b"echo", name) {
        Some(Builtin::Echo)
    } else {
        None
    }
}

/// The built-in of this name.
#[tactic(auto, unfolding(sh_meaning::specs::builtins::Names::builtin_of))]
pub fn builtin_of(name: &[u8]) -> Option<Builtin>
    ensures { result ≡ names.builtin_of name.now }
{
    match special_builtin(name) {
        Some(builtin) => Some(builtin),
        None => plain_builtin(name),
    }
}

/// Whether the name is that of a special built-in (POSIX XCU 2.14).
pub fn is_special(name: &[u8]) -> bool
    ensures { result ≡ names.is_special name.now }
{
    special_builtin(name).is_some()
}

/// Whether sh has a built-in of this name.
pub fn is_sh_builtin(name: &[u8]) -> bool
    ensures { result ≡ names.is_sh_builtin name.now }
{
    builtin_of(name).is_some()
}
