//! Parameters, and what fills in for them or is taken off them (POSIX XCU 2.5, 2.6.2).

ghost use Rattle.std.specs.Prelude.{◌≡◌, List, map, drop, IfOk};
ghost use Rattle.sh_grammar.specs.Shape.{fill, trim};
ghost use Rattle.sh_syntax.specs.View.{view_param, view_part, view_test, view_word, parts_of};
ghost use Rattle.sh_expansion.specs.Views.{listing_of, mode_of, word_of};
ghost use Rattle.sh_meaning.specs.Expanded as words;
ghost use Rattle.sh_meaning.specs.Expanding as expanding;
ghost use Rattle.sh_meaning.specs.Modes as modes;
ghost use Rattle.sh_meaning.specs.Own as owns;
ghost use Rattle.sh_meaning.specs.Commands as commands;
ghost use Rattle.sh_meaning.specs.Parameters as parameters;
ghost use Rattle.sh_meaning.specs.Simple.{Setting};
ghost use Rattle.sh_interp.specs.Answers.{Does, Gives, Turns};
ghost use Rattle.sh_frames.specs.Payloads.{to_word};
ghost use Rattle.sh_interp.specs.Views.{whole_of};

use crate::frames::{Frame, Frames, WordFrame};
use crate::halt::Halt;
use crate::payload::Payload;
use crate::shell::Shell;
use field_split::join;
use sh_builtins::assign;
use sh_checks::{Where, is_list, is_misassigned};
use sh_expansion::{
    Expanded, Listing, Mode, arguments, can_trim, has_length, ifs, is_lacking, length, parameter,
    parameter_text, pattern_of, trimmed,
};
use sh_syntax::{FillTest, Param, Word};
use span_text::{List, Memory, Text};
use std::alloc::Global;

/// The positional parameters in a list of their own.
pub fn copy_arguments(alloc: Global, params: &[Text]) -> Result<List<Text>, Memory>
    ensures { IfOk result (λ l. l ≡ drop 1 params.now) }
{
    let mut copied = List::new(alloc);
    let members = arguments(params);
    for text in members {
        copied.push(Text::copy(alloc, text.bytes())?)?;
    }
    Ok(copied)
}

/// The text of a parameter; an unset one gives the empty text.
#[tactic(auto, using(crate::proofs::Values::text_is))]
fn text_of(param: &Param, shell: &Shell) -> Result<Text, Memory>
    ensures { IfOk result (λ t. t ≡ parameters.parameter_text (view_param param.now) (whole_of shell.now.own)) }
{
    let env = &shell.own.env;
    parameter_text(
        shell.alloc,
        param,
        &env.vars,
        env.params.as_slice(),
        env.status,
    )
}

/// Whether a parameter is unset, and with a colon whether it is empty.
#[tactic(auto, using(crate::proofs::Values::value_is))]
fn lacks(colon: bool, param: &Param, shell: &Shell) -> Result<bool, Memory>
    ensures { IfOk result (λ is. is ≡ parameters.is_lacking colon (parameters.parameter (view_param param.now) (whole_of shell.now.own))) }
{
    let env = &shell.own.env;
    let params = env.params.as_slice();
    let value = parameter(shell.alloc, param, &env.vars, params, env.status)?;
    Ok(match &value {
        None => is_lacking(colon, None),
        Some(text) => is_lacking(colon, Some(text.bytes())),
    })
}

/// Puts a value behind a word.
fn with_value(mode: Mode, text: &[u8], word: Expanded) -> Result<Expanded, Memory>
    ensures { IfOk result (λ w. word_of w ≡ words.with_value (mode_of mode) text.now (word_of word)) }
{
    let mut word = word;
    word.with_value(mode, text)?;
    Ok(word)
}

/// `"$*"`: the positional parameters with the first byte of IFS between them.
fn joined(shell: &Shell) -> Result<Text, Memory>
    ensures { IfOk result (λ t. t ≡ words.joined_members (parameters.ifs (whole_of shell.now.own)) (owns.arguments (whole_of shell.now.own))) }
{
    let members = copy_arguments(shell.alloc, shell.own.env.params.as_slice())?;
    join(shell.alloc, &members, ifs(&shell.own.env.vars))
}

/// `$@` and `$*`, by what they give where they stand.
fn listed(listing: Listing, mode: Mode, word: Expanded, shell: &Shell) -> Result<Expanded, Halt>
    ensures { Gives word_of (expanding.listed_run (listing_of listing) (mode_of mode) (word_of word)) shell.now result }
{
    let mut word = word;
    match listing {
        Listing::Members => {
            let members = arguments(shell.own.env.params.as_slice());
            word.with_members(shell.alloc, mode, members)?;
            Ok(word)
        }
        Listing::Joined => Ok(with_value(mode, joined(shell)?.bytes(), word)?),
        Listing::Nowhere => Err(Halt::Unspecified),
    }
}

/// `$a`.
pub fn param(mode: Mode, of: &Param, word: Expanded, shell: &Shell) -> Result<Expanded, Halt>
    ensures { Gives word_of (expanding.param_run (mode_of mode) (view_param of.now) (word_of word)) shell.now result }
{
    match of {
        Param::At => listed(mode.listing_at(), mode, word, shell),
        Param::Star => listed(mode.listing_star(), mode, word, shell),
        Param::Name(_) | Param::Digits(_) | Param::Count | Param::Status => {
            let text = text_of(of, shell)?;
            Ok(with_value(mode, text.bytes(), word)?)
        }
    }
}

/// `${#a}`.
pub fn param_length(mode: Mode, of: &Param, word: Expanded, shell: &Shell) -> Result<Expanded, Halt>
    ensures { Gives word_of (expanding.length_run (mode_of mode) (view_param of.now) (word_of word)) shell.now result }
{
    if !has_length(of) {
        return Err(Halt::Unspecified);
    }
    let text = text_of(of, shell)?;
    let digits = length(shell.alloc, text.bytes())?;
    Ok(with_value(mode, digits.bytes(), word)?)
}

/// The word that stands in the place of a value.
#[tactic(auto, using(sh_syntax::proofs::Views::word_is))]
fn in_place<'s>(
    mode: Mode,
    inner: &'s Word,
    word: Expanded,
    frames: &mut Frames<'s>,
    shell: &Shell<'s>,
) -> Result<Payload, Halt>
    ensures { (z : Setting) → Turns z (λ call. commands.parts_run z call (modes.in_fill (mode_of mode)) expanding.First (view_word inner.now) (word_of word)) to_word frames.old frames.new shell.now shell.now result }
{
    let parts = inner.parts.as_slice();
    frames.push(Frame::Word(WordFrame::Parts(mode.in_fill(), Where::First, parts)))?;
    Ok(Payload::Word(word))
}

/// `${a=w}` where a lacks a value: w is expanded, and behind it assigned.
#[tactic(auto, using(sh_syntax::proofs::Views::word_is, sh_frames::proofs::WordLaws::assigning_goes))]
fn assigning<'s>(
    mode: Mode,
    of: &'s Param,
    inner: &'s Word,
    word: Expanded,
    frames: &mut Frames<'s>,
    shell: &Shell<'s>,
) -> Result<Payload, Halt>
    ensures { (z : Setting) → Turns z (λ call. expanding.assigning_run (mode_of mode) (view_param of.now) (commands.parts_run z call (modes.in_assigning (mode_of mode)) expanding.First (view_word inner.now) (words.nothing (word_of word).ran)) (word_of word)) to_word frames.old frames.new shell.now shell.now result }
{
    let Param::Name(name) = of else {
        return Err(Halt::Unspecified);
    };
    let next = Expanded::new(shell.alloc, word.ran);
    let parts = inner.parts.as_slice();
    frames.push(Frame::Word(WordFrame::Assigning(mode, name.text.bytes(), word)))?;
    frames.push(Frame::Word(WordFrame::Parts(mode.in_assigning(), Where::First, parts)))?;
    Ok(Payload::Word(next))
}

/// By whether the parameter lacks a value.
#[tactic(auto)]
fn filled<'s>(
    test: FillTest,
    lacking: bool,
    mode: Mode,
    of: &'s Param,
    inner: &'s Word,
    word: Expanded,
    frames: &mut Frames<'s>,
    shell: &Shell<'s>,
) -> Result<Payload, Halt>
    ensures { (z : Setting) → Turns z (λ call. expanding.filled_run (view_test test) lacking (mode_of mode) (view_param of.now) (commands.parts_run z call (modes.in_fill (mode_of mode)) expanding.First (view_word inner.now) (word_of word)) (commands.parts_run z call (modes.in_assigning (mode_of mode)) expanding.First (view_word inner.now) (words.nothing (word_of word).ran)) (word_of word)) to_word frames.old frames.new shell.now shell.now result }
{
    match (test, lacking) {
        (FillTest::Default, true) => in_place(mode, inner, word, frames, shell),
        (FillTest::Default, false) => Ok(Payload::Word(param(mode, of, word, shell)?)),
        (FillTest::Alternate, true) => Ok(Payload::Word(with_value(mode, b"", word)?)),
        (FillTest::Alternate, false) => in_place(mode, inner, word, frames, shell),
        (FillTest::Assign, true) => assigning(mode, of, inner, word, frames, shell),
        (FillTest::Assign, false) => Ok(Payload::Word(param(mode, of, word, shell)?)),
    }
}

/// `${a-w}`, `${a=w}`, `${a+w}`.
#[tactic(auto)]
pub fn fill<'s>(
    test: FillTest,
    colon: bool,
    mode: Mode,
    of: &'s Param,
    inner: &'s Word,
    word: Expanded,
    frames: &mut Frames<'s>,
    shell: &Shell<'s>,
) -> Result<Payload, Halt>
    ensures { (z : Setting) → Turns z (λ call. commands.op_run z call (mode_of mode) (view_param of.now) (fill (view_test test) colon (view_word inner.now)) (word_of word)) to_word frames.old frames.new shell.now shell.now result }
{
    if is_list(of) || is_misassigned(test, of) {
        return Err(Halt::Unspecified);
    }
    let lacking = lacks(colon, of, shell)?;
    filled(test, lacking, mode, of, inner, word, frames, shell)
}

/// `${a#w}`, `${a##w}`, `${a%w}`, `${a%%w}`: the value is that before the pattern.
#[tactic(auto, using(sh_syntax::proofs::Views::word_is, sh_frames::proofs::WordLaws::trimming_goes))]
pub fn trim<'s>(
    suffix: bool,
    longest: bool,
    mode: Mode,
    of: &'s Param,
    pattern: &'s Word,
    word: Expanded,
    frames: &mut Frames<'s>,
    shell: &Shell<'s>,
) -> Result<Payload, Halt>
    ensures { (z : Setting) → Turns z (λ call. commands.op_run z call (mode_of mode) (view_param of.now) (trim suffix longest (view_word pattern.now)) (word_of word)) to_word frames.old frames.new shell.now shell.now result }
{
    if !can_trim(of) {
        return Err(Halt::Unspecified);
    }
    let text = text_of(of, shell)?;
    let next = Expanded::new(shell.alloc, word.ran);
    let parts = pattern.parts.as_slice();
    frames.push(Frame::Word(WordFrame::Trimming(mode, suffix, longest, text, word)))?;
    frames.push(Frame::Word(WordFrame::Parts(Mode::pattern(), Where::First, parts)))?;
    Ok(Payload::Word(next))
}

/// Behind the word of `${a=w}`: its text is assigned, and is what the part gives.
pub fn assigning_over<'s>(
    mode: Mode,
    name: &[u8],
    before: Expanded,
    word: Expanded,
    shell: &mut Shell<'s>,
) -> Result<Expanded, Halt>
    ensures { Does word_of (expanding.assigning_over (mode_of mode) name.now (word_of before) (word_of word)) shell.old shell.new result }
{
    let text = word.text_of(shell.alloc)?;
    let mut before = with_value(mode, text.bytes(), before)?;
    before.ran = word.ran;
    let name = Text::copy(shell.alloc, name)?;
    assign(&mut shell.own.env.vars, name, text)?;
    Ok(before)
}

/// Behind the pattern of `${a%w}`.
pub fn trimming_over<'s>(
    mode: Mode,
    suffix: bool,
    longest: bool,
    text: &[u8],
    before: Expanded,
    word: Expanded,
    shell: &Shell<'s>,
) -> Result<Expanded, Halt>
    ensures { Gives word_of (expanding.trim_over (mode_of mode) suffix longest text.now (word_of before) (word_of word)) shell.now result }
{
    let Some(pattern) = pattern_of(shell.alloc, &word.text)? else {
        return Err(Halt::Unspecified);
    };
    let rest = trimmed(shell.alloc, suffix, longest, &pattern, text)?;
    let mut before = with_value(mode, rest.bytes(), before)?;
    before.ran = word.ran;
    Ok(before)
}
