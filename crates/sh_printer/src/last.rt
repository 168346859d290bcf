//! Words that stand behind the redirections of a command, as in `>x if`: before them the first would be a reserved word
//! (POSIX 2.4).

ghost use Rattle.std.specs.Prelude.{◌≡◌, ◌||◌, ◌∷◌, [], map};
ghost use Rattle.span_text.specs.KnownNames.{same_text};
ghost use Rattle.sh_grammar.specs.Tokens as tokens;
ghost use Rattle.sh_printer.specs.Pieces.{last_words_of};
ghost use Rattle.sh_printing.specs.Printing.{words_last};
ghost use Rattle.sh_printing.specs.Spellable.{is_text, is_reserved_text, is_reserved_word};
ghost use Rattle.sh_syntax.specs.View.{view_assign, view_kind, view_part, view_word, assigns_of, words_of, parts_of};

use sh_syntax::{Assign, CommandKind, Part, PartKind, Word};

/// Whether the words of a simple command stand behind its redirections.
pub fn words_last(assigns: &[Assign], words: &[Word]) -> bool
    ensures { result ≡ words_last (assigns_of (map view_assign assigns.now)) (words_of (map view_word words.now)) }
{
    match assigns {
        [] => first_reserved(words),
        [_, ..] => false,
    }
}

fn first_reserved(words: &[Word]) -> bool
    ensures { result ≡ words_last (assigns_of []) (words_of (map view_word words.now)) }
{
    match words {
        [] => false,
        [first, ..] => is_reserved_word(first.parts.as_slice()),
    }
}

/// The words that stand behind the redirections of a command.
pub fn last_words(kind: &CommandKind) -> &[Word]
    ensures { words_of (map view_word result.now) ≡ last_words_of (view_kind kind.now) }
{
    match kind {
        CommandKind::Simple { assigns, words } => {
            let words = words.as_slice();
            if words_last(assigns.as_slice(), words) {
                return words;
            }
            &[]
        }
        CommandKind::Group(_) => &[],
        CommandKind::Subshell(_) => &[],
        CommandKind::If {
            parts: _,
            otherwise: _,
        } => &[],
        CommandKind::Loop {
            until: _,
            test: _,
            body: _,
        } => &[],
        CommandKind::For {
            name: _,
            words: _,
            body: _,
        } => &[],
        CommandKind::Case {
            subject: _,
            items: _,
        } => &[],
        CommandKind::Function(_) => &[],
    }
}

/// Whether these parts would be a reserved word where a command begins.
pub fn is_reserved_word(parts: &[Part]) -> bool
    ensures { result ≡ is_reserved_word (parts_of (map view_part parts.now)) }
{
    match parts {
        [part] => is_reserved_part(part),
        [] => false,
        [_, _, ..] => false,
    }
}

fn is_reserved_part(part: &Part) -> bool
    ensures { result ≡ is_reserved_word (parts_of (view_part part.now ∷ [])) }
{
    match &part.kind {
        PartKind::Plain(text) => is_reserved_text(text.bytes()),
        PartKind::Exact(_) => false,
        PartKind::Double(_) => false,
        PartKind::Tilde => false,
        PartKind::Param { param: _, op: _ } => false,
        PartKind::Subst(_) => false,
        PartKind::Arith(_) => false,
    }
}

/// The reserved words.
pub fn is_reserved_text(text: &[u8]) -> bool
    ensures { result ≡ is_reserved_text text.now }
{
    begins_compound(text) || is_other_key(text)
}

/// The reserved words that begin a compound command.
#[tactic(auto, unfolding(sh_grammar::specs::Tokens::key_text))]
fn begins_compound(text: &[u8]) -> bool
    ensures { result ≡ (is_text tokens.If text.now || is_text tokens.For text.now || is_text tokens.While text.now || is_text tokens.Until text.now || is_text tokens.Case text.now || is_text tokens.OpenBrace text.now) }
{
    is_same(text, b"if")
        || is_same(text, b"for")
        || is_same(text, b"while")
        || is_same(text, b"until")
        || is_same(text, b"case")
        || is_same(text, b"{")
}

/// The other reserved words.
#[tactic(auto, unfolding(sh_grammar::specs::Tokens::key_text))]
fn is_other_key(text: &[u8]) -> bool
    ensures { result ≡ (is_text tokens.Then text.now || is_text tokens.Elif text.now || is_text tokens.Else text.now || is_text tokens.Fi text.now || is_text tokens.In text.now || is_text tokens.Do text.now || is_text tokens.Done text.now || is_text tokens.Esac text.now || is_text tokens.CloseBrace text.now || is_text tokens.Bang text.now) }
{
    is_same(text, b"then")
        || is_same(text, b"elif")
        || is_same(text, b"else")
        || is_same(text, b"fi")
        || is_same(text, b"in")
        || is_same(text, b"do")
        || is_same(text, b"done")
        || is_same(text, b"esac")
        || is_same(text, b"}")
        || is_same(text, b"!")
}

fn is_same(text: &[u8], key: &[u8]) -> bool
    ensures { result ≡ same_text text.now key.now }
{
    text == key
}
