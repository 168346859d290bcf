//! `test` and `[` (POSIX XCU test).

ghost use Rattle.std.specs.Prelude.{◌≡◌, ◌-◌, take, drop, length};
ghost use Rattle.sh_meaning.specs.builtins.Ends.{status_of_test};
ghost use Rattle.sh_meaning.specs.builtins.Testing as testing;
ghost use Rattle.sh_builtins.specs.Views.{Leaves, state_of};

use crate::environment::Environment;
use crate::flow::{Flow, Stop};
use crate::names::is_word;
use crate::numbers::signed_number;
use shell_world::{Found, Outside};
use span_text::Text;

fn is_there(found: Found) -> bool
    ensures { result ≡ testing.is_there found }
{
    match found {
        Found::Nothing => false,
        Found::Folder => true,
        Found::File(_) => true,
    }
}

fn is_file(found: Found) -> bool
    ensures { result ≡ testing.is_file found }
{
    match found {
        Found::Nothing => false,
        Found::Folder => false,
        Found::File(_) => true,
    }
}

fn is_folder(found: Found) -> bool
    ensures { result ≡ testing.is_folder found }
{
    match found {
        Found::Nothing => false,
        Found::Folder => true,
        Found::File(_) => false,
    }
}

fn has_size(found: Found) -> bool
    ensures { result ≡ testing.has_size found }
{
    match found {
        Found::Nothing => false,
        Found::Folder => true,
        Found::File(size) => size > 0,
    }
}

/// A test of what stands at a path.
fn file_test(op: &[u8], found: Found) -> Option<bool>
    ensures { result ≡ testing.file_test op.now found }
{
    if is_word(b"-e", op) {
        Some(is_there(found))
    } else if is_word(b"-f", op) {
        Some(is_file(found))
    } else if is_word(b"-d", op) {
        Some(is_folder(found))
    } else if is_word(b"-s", op) {
        Some(has_size(found))
    } else if is_word(b"-r", op) {
        Some(is_there(found))
    } else if is_word(b"-w", op) {
        Some(is_there(found))
    } else {
        None
    }
}

/// A test of one text.
fn unary(outside: &Outside, op: &[u8], text: &[u8]) -> Option<bool>
    ensures { result ≡ testing.unary outside.now.outside.files op.now text.now }
{
    if is_word(b"-n", op) {
        Some(!text.is_empty())
    } else if is_word(b"-z", op) {
        Some(text.is_empty())
    } else {
        file_test(op, outside.look(text))
    }
}

/// A test of two numbers.
fn number_test(op: &[u8], a: i64, b: i64) -> Option<bool>
    ensures { result ≡ testing.number_test op.now a b }
{
    if is_word(b"-eq", op) {
        Some(a == b)
    } else if is_word(b"-ne", op) {
        Some(a != b)
    } else if is_word(b"-lt", op) {
        Some(a < b)
    } else if is_word(b"-le", op) {
        Some(a <= b)
    } else if is_word(b"-gt", op) {
        Some(a > b)
    } else if is_word(b"-ge", op) {
        Some(a >= b)
    } else {
        None
    }
}

fn compares_numbers(op: &[u8]) -> bool
    ensures { result ≡ testing.compares_numbers op.now }
{
    is_word(b"-eq", op)
        || is_word(b"-ne", op)
        || is_word(b"-lt", op)
        || is_word(b"-le", op)
        || is_word(b"-gt", op)
        || is_word(b"-ge", op)
}

fn compares_texts(op: &[u8]) -> bool
    ensures { result ≡ testing.compares_texts op.now }
{
    is_word(b"=", op) || is_word(b"!=", op)
}

fn is_binary(op: &[u8]) -> bool
    ensures { result ≡ testing.is_binary op.now }
{
    compares_texts(op) || compares_numbers(op) || is_word(b"==", op)
}

fn numbers_tested(op: &[u8], a: &[u8], b: &[u8]) -> Option<bool>
    ensures { result ≡ testing.number_test_of op.now (testing.decimal_of a.now) (testing.decimal_of b.now) }
{
    let a = signed_number(a)?;
    let b = signed_number(b)?;
    number_test(op, a, b)
}

/// A test of two texts, or of the numbers that they write.
fn binary(op: &[u8], a: &[u8], b: &[u8]) -> Option<bool>
    ensures { result ≡ testing.binary op.now a.now b.now }
{
    if is_word(b"=", op) {
        Some(is_word(a, b))
    } else if is_word(b"!=", op) {
        Some(!is_word(a, b))
    } else {
        numbers_tested(op, a, b)
    }
}

fn is_bang(text: &[u8]) -> bool
    ensures { result ≡ testing.is_bang text.now }
{
    is_word(b"!", text)
}

fn opposite(answer: Option<bool>) -> Option<bool>
    ensures { result ≡ testing.opposite answer }
{
    match answer {
        None => None,
        Some(holds) => Some(!holds),
    }
}

fn test_two(outside: &Outside, a: &[u8], b: &[u8]) -> Option<bool>
    ensures { result ≡ testing.test_two outside.now.outside.files a.now b.now }
{
    if is_bang(a) {
        Some(b.is_empty())
    } else {
        unary(outside, a, b)
    }
}

fn test_three(outside: &Outside, a: &[u8], b: &[u8], c: &[u8]) -> Option<bool>
    ensures { result ≡ testing.test_three outside.now.outside.files a.now b.now c.now }
{
    if is_binary(b) {
        binary(b, a, c)
    } else if is_bang(a) {
        opposite(test_two(outside, b, c))
    } else {
        None
    }
}

fn test_four(outside: &Outside, a: &[u8], b: &[u8], c: &[u8], d: &[u8]) -> Option<bool>
    ensures { result ≡ testing.test_four outside.now.outside.files a.now b.now c.now d.now }
{
    if is_bang(a) {
        opposite(test_three(outside, b, c, d))
    } else {
        None
    }
}

/// Whether the test of these arguments holds, by their number.
fn tested(outside: &Outside, args: &[Text]) -> Option<bool>
    ensures { result ≡ testing.tested outside.now.outside.files args.now }
{
    match args {
        [] => Some(false),
        [a] => Some(!a.bytes().is_empty()),
        [a, b] => test_two(outside, a.bytes(), b.bytes()),
        [a, b, c] => test_three(outside, a.bytes(), b.bytes(), c.bytes()),
        [a, b, c, d] => test_four(outside, a.bytes(), b.bytes(), c.bytes(), d.bytes()),
        [_, _, _, _, _, ..] => None,
    }
}

/// The status of a test.
fn status_of(holds: bool) -> u8
    ensures { result ≡ status_of_test holds }
{
    if holds { 0 } else { 1 }
}

/// `test`: the status is 0 where the test holds, else 1. It is unspecified with an operator that not each shell has, with
/// a text that is no number where one is wanted, and with more than four arguments.
pub fn test(args: &[Text], env: &mut Environment, outside: &Outside) -> Result<Flow, Stop>
    ensures { Leaves (testing.test_run args.now (state_of env.old outside.now)) env.new outside.now result }
{
    match tested(outside, args) {
        None => Err(Stop::Unspecified),
        Some(holds) => {
            env.status = status_of(holds);
            Ok(Flow::Normal)
        }
    }
}

/// `[`, as `test`. It is unspecified without a last argument `]`.
pub fn bracket(args: &[Text], env: &mut Environment, outside: &Outside) -> Result<Flow, Stop>
    ensures { Leaves (testing.bracket_run args.now (state_of env.old outside.now)) env.new outside.now result }
{
    match args {
        [] => Err(Stop::Unspecified),
        [before @ .., last] => {
            if is_word(b"]", last.bytes()) {
                test(before, env, outside)
            } else {
                Err(Stop::Unspecified)
            }
        }
    }
}
