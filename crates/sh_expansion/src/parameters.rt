//! Parameters and their values (POSIX XCU 2.5). `params` is the script's name and the positional parameters.

ghost use Rattle.std.specs.Prelude.{◌≡◌, ◌+◌, ◌*◌, [], Some, length, drop, min, codes, decimal, IfOk};
ghost use Rattle.std.specs.Option.{option_copied};
ghost use Rattle.std.specs.Char.{digit_value};
ghost use Rattle.std.specs.Str.Parse.{digits_value};
ghost use Rattle.shell_world.specs.Texts.{lookup, nth};
ghost use Rattle.sh_meaning.specs.Parameters as parameters;
ghost use Rattle.sh_syntax.specs.View.{view_param};
ghost use Rattle.sh_expansion.specs.Views.{own_of};

use itoa::Buffer;
use sh_meaning::Variable;
use sh_syntax::Param;
use shell_world::TextMap;
use span_text::{Memory, Text};
use std::alloc::Global;

/// The text of a variable, where it is set.
pub fn variable<'v>(name: &[u8], vars: &'v TextMap<Variable>) -> Option<&'v [u8]>
    ensures { option_copied result ≡ parameters.value_in (lookup name.now vars.now) }
{
    match vars.get(name) {
        None => None,
        Some(variable) => match &variable.value {
            None => None,
            Some(text) => Some(text.bytes()),
        },
    }
}

/// What `~` gives.
pub fn home(vars: &TextMap<Variable>) -> Option<&[u8]>
    ensures { option_copied result ≡ parameters.home (own_of vars.now [] 0) }
{
    variable(b"HOME", vars)
}

/// What splits fields and joins lists; an unset one is None.
pub fn ifs(vars: &TextMap<Variable>) -> Option<&[u8]>
    ensures { option_copied result ≡ parameters.ifs (own_of vars.now [] 0) }
{
    variable(b"IFS", vars)
}

/// The number with one digit more, where it is at most so much, else that.
fn next_within(most: usize, number: usize, digit: u8) -> usize
    ensures { result ≡ min (number * 10 + digit_value digit) most }
{
    let value = match char::from(digit).to_digit(36) {
        None => 36,
        Some(value) => value,
    };
    let next = number as u128 * 10 + u128::from(value);
    next.min(most as u128) as usize
}

/// The number that decimal digits write, where it is at most so much, else that.
fn number_within(most: usize, digits: &[u8]) -> usize
    ensures { result ≡ min (digits_value 10 digits.now) most }
{
    let mut number: usize = 0;
    for digit in digits {
        number = next_within(most, number, *digit);
    }
    number.min(most)
}

/// The text that these digits number, where there is one.
#[tactic(auto, using(crate::proofs::Positions::nth_within))]
fn positional<'p>(digits: &[u8], params: &'p [Text]) -> Option<&'p [u8]>
    ensures { option_copied result ≡ nth (digits_value 10 digits.now) params.now }
{
    match params.get(number_within(params.len(), digits)) {
        None => None,
        Some(text) => Some(text.bytes()),
    }
}

/// The positional parameters, without the script's name.
pub fn arguments(params: &[Text]) -> &[Text]
    ensures { result.now ≡ drop 1 params.now }
{
    match params {
        [] => params,
        [_, rest @ ..] => rest,
    }
}

fn number_text(alloc: Global, number: u64) -> Result<Text, Memory>
    ensures { IfOk result (λ text. text ≡ decimal number) }
{
    Text::copy(alloc, Buffer::new().format(number).as_bytes())
}

/// `${#a}`: the length of a parameter's text, in bytes.
pub fn length(alloc: Global, text: &[u8]) -> Result<Text, Memory>
    ensures { IfOk result (λ t. t ≡ decimal (length text.now)) }
{
    number_text(alloc, text.len() as u64)
}

fn copied(alloc: Global, text: Option<&[u8]>) -> Result<Option<Text>, Memory>
    ensures { IfOk result (λ t. t ≡ option_copied text.entry) }
{
    match text {
        None => Ok(None),
        Some(bytes) => Ok(Some(Text::copy(alloc, bytes)?)),
    }
}

fn some(alloc: Global, number: u64) -> Result<Option<Text>, Memory>
    ensures { IfOk result (λ t. t ≡ Some (decimal number)) }
{
    Ok(Some(number_text(alloc, number)?))
}

/// A parameter's text, where it is set; `$@` and `$*` have none of their own.
pub fn parameter(
    alloc: Global,
    param: &Param,
    vars: &TextMap<Variable>,
    params: &[Text],
    status: u8,
) -> Result<Option<Text>, Memory>
    ensures { IfOk result (λ t. t ≡ parameters.parameter (view_param param.now) (own_of vars.now params.now status)) }
{
    match param {
        Param::Name(name) => copied(alloc, variable(name.text.bytes(), vars)),
        Param::Digits(digits) => copied(alloc, positional(digits.bytes(), params)),
        Param::Count => some(alloc, arguments(params).len() as u64),
        Param::Status => some(alloc, u64::from(status)),
        Param::At | Param::Star => Ok(None),
    }
}

/// A parameter's text; an unset one gives the empty text.
pub fn parameter_text(
    alloc: Global,
    param: &Param,
    vars: &TextMap<Variable>,
    params: &[Text],
    status: u8,
) -> Result<Text, Memory>
    ensures { IfOk result (λ t. t ≡ parameters.parameter_text (view_param param.now) (own_of vars.now params.now status)) }
{
    match parameter(alloc, param, vars, params, status)? {
        None => Ok(Text::new(alloc)),
        Some(text) => Ok(text),
    }
}

/// Whether a parameter is unset, and with a colon whether it is empty (2.6.2).
pub fn is_lacking(colon: bool, text: Option<&[u8]>) -> bool
    ensures { result ≡ parameters.is_lacking colon (option_copied text.entry) }
{
    match text {
        None => true,
        Some(bytes) => colon && bytes.is_empty(),
    }
}

/// Whether shells agree on `${#a}`.
pub fn has_length(param: &Param) -> bool
    ensures { result ≡ parameters.has_length (view_param param.now) }
{
    match param {
        Param::Name(_) | Param::Digits(_) | Param::Count | Param::Status => true,
        Param::At | Param::Star => false,
    }
}

/// Whether shells agree on `${a#w}` and its kin.
pub fn can_trim(param: &Param) -> bool
    ensures { result ≡ parameters.can_trim (view_param param.now) }
{
    match param {
        Param::Name(_) | Param::Digits(_) | Param::Status => true,
        Param::Count | Param::At | Param::Star => false,
    }
}
