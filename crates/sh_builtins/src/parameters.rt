//! `set` and `shift` (POSIX XCU 2.14).

ghost use Rattle.std.specs.Prelude.{◌≡◌, ◌++◌, ◌+◌, ◌-◌, ◌<◌, take, drop, length, IfOk, OnOk, IfSome, ◌≤◌};
ghost use Rattle.sh_meaning.specs.builtins.Parameters as parameters;
ghost use Rattle.sh_meaning.specs.builtins.Ends.{ends};
ghost use Rattle.sh_builtins.specs.Views.{Changes, core_of};

use crate::environment::Environment;
use crate::flow::{Flow, Stop};
use crate::names::is_word;
use crate::numbers::number;
use span_text::{List, Memory, Text};
use std::alloc::Global;

fn push_copies(alloc: Global, texts: &[Text], to: &mut List<Text>) -> Result<(), Memory>
    ensures { OnOk result (to.new ≡ to.old ++ texts.now) }
{
    for text in texts {
        to.push(Text::copy(alloc, text.bytes())?)?;
    }
    Ok(())
}

fn first_of(texts: &[Text]) -> &[Text]
    ensures { result.now ≡ take 1 texts.now }
{
    if texts.is_empty() { &[] } else { &texts[..1] }
}

/// `$0` of these parameters, and other positional parameters.
fn with_words(alloc: Global, params: &[Text], words: &[Text]) -> Result<List<Text>, Memory>
    ensures { IfOk result (λ l. l ≡ take 1 params.now ++ words.now) }
{
    let mut all = List::new(alloc);
    push_copies(alloc, first_of(params), &mut all)?;
    push_copies(alloc, words, &mut all)?;
    Ok(all)
}

fn set_words(alloc: Global, words: &[Text], env: &mut Environment) -> Result<Flow, Stop>
    ensures { Changes (ends 0 (parameters.params_set words.now (core_of env.old))) env.new result }
{
    env.params = with_words(alloc, env.params.as_slice(), words)?;
    env.status = 0;
    Ok(Flow::Normal)
}

/// `set -- words`: the positional parameters are these words. Other forms are unspecified.
pub fn set(alloc: Global, args: &[Text], env: &mut Environment) -> Result<Flow, Stop>
    ensures { Changes (parameters.set_run args.now (core_of env.old)) env.new result }
{
    match args {
        [] => Err(Stop::Unspecified),
        [first, words @ ..] => {
            if is_word(b"--", first.bytes()) {
                set_words(alloc, words, env)
            } else {
                Err(Stop::Unspecified)
            }
        }
    }
}

/// How many parameters go: a decimal number that is at most their count, or 1.
fn shift_count(args: &[Text], count: u64) -> Option<u64>
    ensures value { result ≡ parameters.shift_count args.now count }
    ensures bound { IfSome result (λ n. n ≤ count) }
{
    match args {
        [] => { if count >= 1 { Some(1) } else { None } }
        [text, more @ ..] => {
            if more.is_empty() {
                number(count, text.bytes())
            } else {
                None
            }
        }
    }
}

fn params_behind(alloc: Global, params: &[Text], count: usize) -> Result<List<Text>, Memory>
    ensures { IfOk result (λ l. l ≡ take 1 params.now ++ drop (count + 1) params.now) }
{
    if count < params.len() {
        with_words(alloc, params, &params[count + 1..])
    } else {
        with_words(alloc, params, &[])
    }
}

/// `shift [n]`: the first n positional parameters go. It is unspecified with an argument that is no decimal number up to
/// `$#`, and with more arguments.
pub fn shift(alloc: Global, args: &[Text], env: &mut Environment) -> Result<Flow, Stop>
    ensures { Changes (parameters.shift_run args.now (core_of env.old)) env.new result }
{
    let count = env.params.len().saturating_sub(1) as u64;
    match shift_count(args, count) {
        None => Err(Stop::Unspecified),
        Some(n) => {
            env.params = params_behind(alloc, env.params.as_slice(), n as usize)?;
            env.status = 0;
            Ok(Flow::Normal)
        }
    }
}
