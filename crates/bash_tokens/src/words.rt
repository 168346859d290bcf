//! Reserved words (Bash manual, section 3.2.1), other words that the grammar knows, and what may come next.

ghost use Rattle.std.specs.Prelude.{◌≡◌, ◌==◌, ◌&&◌, ◌∷◌, []};
ghost use Rattle.std.specs.List.{list_any};
ghost use Rattle.span_text.specs.KnownNames.{same_text};
ghost use Rattle.bash_grammar.specs.Steps as steps;
ghost use Rattle.bash_grammar.specs.Tokens as tokens;
ghost use Rattle.bash_tokens.specs.Kinds as kinds;

use crate::gaps::gap;
use crate::keys::{Flag, Key};
use crate::literals::{byte_next, unit_starts};
use crate::operators::{Control, Op, Redirection};
use crate::runs::{Run, run_behind, run_end};
use crate::spots::Context;
use crate::tokens::{is_control, is_redirection, is_token, token};

const COMPOUND_WORDS: [&[u8]; 8] = [
    b"if", b"for", b"while", b"until", b"case", b"select", b"{", b"[[",
];

const COMMAND_WORDS: [&[u8]; 3] = [b"function", b"time", b"coproc"];

const OTHER_WORDS: [&[u8]; 11] = [
    b"then", b"elif", b"else", b"fi", b"in", b"do", b"done", b"esac", b"}", b"]]", b"!",
];

const DECLARING_WORDS: [&[u8]; 4] = [b"declare", b"typeset", b"local", b"readonly"];

const UNARY_TESTS: [&[u8]; 26] = [
    b"-a", b"-b", b"-c", b"-d", b"-e", b"-f", b"-g", b"-h", b"-k", b"-n", b"-o", b"-p", b"-r",
    b"-s", b"-t", b"-u", b"-v", b"-w", b"-x", b"-z", b"-G", b"-L", b"-N", b"-O", b"-R", b"-S",
];

const BINARY_TESTS: [&[u8]; 12] = [
    b"=", b"==", b"!=", b"-nt", b"-ot", b"-ef", b"-eq", b"-ne", b"-lt", b"-le", b"-gt", b"-ge",
];

#[tactic(auto, unfolding(bash_grammar::specs::Tokens::key_text))]
fn key_text(key: Key) -> &'static [u8]
    ensures { result.now ≡ tokens.key_text (kinds.key key) }
{
    match key {
        Key::If => b"if",
        Key::Then => b"then",
        Key::Elif => b"elif",
        Key::Else => b"else",
        Key::Fi => b"fi",
        Key::For => b"for",
        Key::In => b"in",
        Key::Until => b"until",
        Key::While => b"while",
        Key::Do => b"do",
        Key::Done => b"done",
        Key::Case => b"case",
        Key::Esac => b"esac",
        Key::Select => b"select",
        Key::Function => b"function",
        Key::Time => b"time",
        Key::Coproc => b"coproc",
        Key::OpenBrace => b"{",
        Key::CloseBrace => b"}",
        Key::OpenCond => b"[[",
        Key::CloseCond => b"]]",
        Key::Bang => b"!",
    }
}

/// What follows the bytes at a token's place that stand for themselves.
#[tactic(auto, unfolding(bash_grammar::specs::Bytes::literal_run))]
pub fn literal_end(bytes: &[u8]) -> &[u8]
    ensures { result.now ≡ (tokens.literal_word bytes.now).1 }
{
    run_end(Run::Literal(Context::WORD), gap(bytes))
}

/// Whether those bytes are these.
#[tactic(auto, unfolding(bash_grammar::specs::Bytes::literal_run), using(crate::proofs::Alike::turned))]
fn literal_is(bytes: &[u8], text: &[u8]) -> bool
    ensures { result ≡ same_text text.now (tokens.literal_word bytes.now).0 }
{
    run_behind(Run::Literal(Context::WORD), gap(bytes), text).is_some()
}

/// Whether those bytes are a whole word.
fn is_whole(bytes: &[u8]) -> bool
    ensures { result ≡ tokens.is_whole (tokens.literal_word bytes.now) }
{
    !unit_starts(Context::WORD, literal_end(bytes))
}

/// Whether this reserved word comes next.
#[tactic(auto, unfolding(bash_grammar::specs::Tokens::is_key), using(crate::proofs::Alike::turned))]
pub fn is_key(key: Key, bytes: &[u8]) -> bool
    ensures { result ≡ tokens.is_key (kinds.key key) bytes.now }
{
    is_whole(bytes) && literal_is(bytes, key_text(key))
}

/// Whether the bytes at a token's place are one of these words.
fn is_one_of(words: &[&[u8]], bytes: &[u8]) -> bool
    ensures { result ≡ list_any (λ word. same_text word.now (tokens.literal_word bytes.now).0) words.now }
{
    words.iter().any(|word| literal_is(bytes, *word))
}

/// Reserved words that begin a compound command.
#[tactic(auto, unfolding(bash_grammar::specs::Tokens::is_word_of, bash_grammar::specs::Tokens::compound_words))]
fn is_compound_word(bytes: &[u8]) -> bool
    ensures { result ≡ tokens.is_word_of tokens.compound_words bytes.now }
{
    is_whole(bytes) && is_one_of(&COMPOUND_WORDS, bytes)
}

/// Reserved words that begin another command.
#[tactic(auto, unfolding(bash_grammar::specs::Tokens::is_word_of, bash_grammar::specs::Tokens::command_words))]
pub fn is_command_word(bytes: &[u8]) -> bool
    ensures { result ≡ tokens.is_word_of tokens.command_words bytes.now }
{
    is_whole(bytes) && is_one_of(&COMMAND_WORDS, bytes)
}

/// Reserved words that begin none.
#[tactic(auto, unfolding(bash_grammar::specs::Tokens::is_word_of, bash_grammar::specs::Tokens::other_words))]
fn is_other_word(bytes: &[u8]) -> bool
    ensures { result ≡ tokens.is_word_of tokens.other_words bytes.now }
{
    is_whole(bytes) && is_one_of(&OTHER_WORDS, bytes)
}

/// Built-ins that declare (4.2).
#[tactic(auto, unfolding(bash_grammar::specs::Tokens::is_word_of, bash_grammar::specs::Tokens::declaring_words))]
pub fn is_declaring_word(bytes: &[u8]) -> bool
    ensures { result ≡ tokens.is_word_of tokens.declaring_words bytes.now }
{
    is_whole(bytes) && is_one_of(&DECLARING_WORDS, bytes)
}

/// Operators of `[[ ]]` before an operand (6.4).
#[tactic(auto, unfolding(bash_grammar::specs::Tokens::is_word_of, bash_grammar::specs::Tokens::unary_tests))]
pub fn is_unary_test(bytes: &[u8]) -> bool
    ensures { result ≡ tokens.is_word_of tokens.unary_tests bytes.now }
{
    is_whole(bytes) && is_one_of(&UNARY_TESTS, bytes)
}

/// Operators of `[[ ]]` between two operands (6.4).
#[tactic(auto, unfolding(bash_grammar::specs::Tokens::is_word_of, bash_grammar::specs::Tokens::binary_tests))]
pub fn is_binary_test(bytes: &[u8]) -> bool
    ensures { result ≡ tokens.is_word_of tokens.binary_tests bytes.now }
{
    is_whole(bytes) && is_one_of(&BINARY_TESTS, bytes)
}

/// `=~`
#[tactic(auto, unfolding(bash_grammar::specs::Tokens::is_word_of))]
pub fn is_regex_test(bytes: &[u8]) -> bool
    ensures { result ≡ tokens.is_word_of ((61 ∷ 126 ∷ []) ∷ []) bytes.now }
{
    is_whole(bytes) && is_one_of(&[b"=~"], bytes)
}

/// `-p`, `--`.
fn flag_text(flag: Flag) -> &'static [u8]
    ensures { result.now ≡ steps.flag_text (kinds.flag flag) }
{
    match flag {
        Flag::Posix => b"-p",
        Flag::Last => b"--",
    }
}

/// Whether this option of `time` comes next.
#[tactic(auto, unfolding(bash_grammar::specs::Tokens::is_word_of))]
pub fn is_option(flag: Flag, bytes: &[u8]) -> bool
    ensures { result ≡ tokens.is_word_of (steps.flag_text (kinds.flag flag) ∷ []) bytes.now }
{
    is_whole(bytes) && literal_is(bytes, flag_text(flag))
}

/// Whether a redirection begins with this operator.
#[tactic(auto, unfolding(bash_grammar::specs::Tokens::code))]
fn begins_redirect(token: Op) -> bool
    ensures { result ≡ kinds.redirect_op (kinds.op token) }
{
    match token {
        Op::Redirection(_) => true,
        Op::Io => true,
        Op::Far => true,
        Op::Control(_) => false,
        Op::End => false,
        Op::Newline => false,
        Op::Word => false,
    }
}

/// Whether `<<` or `<<-` comes next.
#[tactic(auto, unfolding(bash_grammar::specs::Tokens::here_next))]
pub fn here_next(bytes: &[u8]) -> bool
    ensures { result ≡ tokens.here_next bytes.now }
{
    is_redirection(Redirection::DLess, bytes) || is_redirection(Redirection::DLessDash, bytes)
}

/// Whether a redirection comes next.
pub fn redirect_next(bytes: &[u8]) -> bool
    ensures { result ≡ tokens.redirect_next bytes.now }
{
    begins_redirect(token(bytes).0)
}

/// Whether a word comes next that is no reserved word.
#[tactic(auto, unfolding(bash_grammar::specs::Tokens::plain_next))]
fn plain_next(bytes: &[u8]) -> bool
    ensures { result ≡ tokens.plain_next bytes.now }
{
    is_token(Op::Word, bytes)
        && !(is_compound_word(bytes) || is_command_word(bytes) || is_other_word(bytes))
}

/// Whether a simple command comes next.
#[tactic(auto, unfolding(bash_grammar::specs::Tokens::simple_next))]
pub fn simple_next(bytes: &[u8]) -> bool
    ensures { result ≡ tokens.simple_next bytes.now }
{
    redirect_next(bytes) || plain_next(bytes)
}

/// Whether a compound command comes next.
#[tactic(auto, unfolding(bash_grammar::specs::Tokens::compound_next))]
pub fn compound_next(bytes: &[u8]) -> bool
    ensures { result ≡ tokens.compound_next bytes.now }
{
    is_control(Control::Open, bytes) || (is_token(Op::Word, bytes) && is_compound_word(bytes))
}

/// Whether a command comes next.
#[tactic(auto, unfolding(bash_grammar::specs::Tokens::command_next))]
pub fn command_next(bytes: &[u8]) -> bool
    ensures { result ≡ tokens.command_next bytes.now }
{
    compound_next(bytes)
        || simple_next(bytes)
        || (is_token(Op::Word, bytes) && is_command_word(bytes))
}

/// Whether a pipeline comes next.
#[tactic(auto, unfolding(bash_grammar::specs::Tokens::pipeline_next))]
pub fn pipeline_next(bytes: &[u8]) -> bool
    ensures { result ≡ tokens.pipeline_next bytes.now }
{
    is_key(Key::Bang, bytes) || command_next(bytes)
}

/// Whether `((` comes next, with no byte between.
#[tactic(auto, unfolding(bash_grammar::specs::Tokens::sum_command_next))]
pub fn sum_command_next(bytes: &[u8]) -> bool
    ensures { result ≡ tokens.sum_command_next bytes.now }
{
    match token(bytes) {
        (Op::Control(Control::Open), rest) => byte_next(b'(', rest),
        _ => false,
    }
}

/// Whether `(` and `)` come next.
#[tactic(auto, unfolding(bash_grammar::specs::Tokens::parens_next))]
pub fn parens_next(bytes: &[u8]) -> bool
    ensures { result ≡ tokens.parens_next bytes.now }
{
    is_control(Control::Open, bytes) && is_control(Control::Close, token(bytes).1)
}

/// Whether `<` or `>` comes next.
pub fn is_angle_token(bytes: &[u8]) -> bool
    ensures { result ≡ tokens.is_angle_token bytes.now }
{
    is_redirection(Redirection::Less, bytes) || is_redirection(Redirection::Great, bytes)
}
