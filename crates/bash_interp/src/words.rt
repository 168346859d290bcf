//! The expansion of words (Bash manual, section 3.5). Nothing here is split, and nothing here names files.

ghost use Rattle.std.specs.Prelude.{◌≡◌, map, IfOk};
ghost use Rattle.bash_tree.specs.View.{view_kind, view_part, name_of_param, parts_of, view_word, view_value, words_of};
ghost use Rattle.bash_meaning.specs.Variables as variables;
ghost use Rattle.bash_meaning.specs.Meaning as meaning;
ghost use Rattle.bash_interp.specs.Shells.{scopes_of, state_of, Gives};

use crate::shell::{Shell, Stop};
use crate::variables::text_of;
use bash_tree::{AssignValue, Param, Part, PartKind, Word};
use span_text::{List, Memory, Text};

fn param_text(shell: &Shell, param: &Param) -> Result<Text, Memory>
    ensures { IfOk result (λ t. t ≡ variables.text_of (name_of_param param.now) (scopes_of shell.now.bottom)) }
{
    let Param::Name(name) = param;
    Text::copy(shell.alloc, text_of(&shell.bottom, name.text.bytes()))
}

/// What a part between double quotes gives (3.1.2.3).
#[tactic(auto, using(bash_tree::proofs::Views::plain_is, bash_tree::proofs::Views::exact_is, bash_tree::proofs::Views::double_is, bash_tree::proofs::Views::param_is))]
fn quoted_kind_text(shell: &Shell, kind: &PartKind) -> Result<Text, Stop>
    ensures { Gives (meaning.quoted_part (view_kind kind.now) shell.now.turns (state_of shell.now)) (state_of shell.now) shell.now.turns result }
{
    match kind {
        PartKind::Plain(text) => Ok(Text::copy(shell.alloc, text.bytes())?),
        PartKind::Param { param, op: _ } => Ok(param_text(shell, param)?),
        PartKind::Exact(_) => Err(Stop::Unspecified),
        PartKind::Double(_) => Err(Stop::Unspecified),
    }
}

#[tactic(auto, using(bash_tree::proofs::Views::part_is))]
fn quoted_part_text(shell: &Shell, part: &Part) -> Result<Text, Stop>
    ensures { Gives (meaning.quoted_part (view_part part.now) shell.now.turns (state_of shell.now)) (state_of shell.now) shell.now.turns result }
{
    quoted_kind_text(shell, &part.kind)
}

/// The texts of parts between double quotes, one behind the other.
fn quoted_text(shell: &Shell, parts: &[Part]) -> Result<Text, Stop>
    ensures { Gives (meaning.joined meaning.quoted_part (parts_of (map view_part parts.now)) shell.now.turns (state_of shell.now)) (state_of shell.now) shell.now.turns result }
{
    let mut text = Text::new(shell.alloc);
    for part in parts {
        let piece = quoted_part_text(shell, part)?;
        text.append(piece.bytes())?;
    }
    Ok(text)
}

#[tactic(auto, using(bash_tree::proofs::Views::plain_is, bash_tree::proofs::Views::exact_is, bash_tree::proofs::Views::double_is, bash_tree::proofs::Views::param_is))]
fn kind_text(shell: &Shell, kind: &PartKind) -> Result<Text, Stop>
    ensures { Gives (meaning.word_part (view_kind kind.now) shell.now.turns (state_of shell.now)) (state_of shell.now) shell.now.turns result }
{
    match kind {
        PartKind::Plain(text) => Ok(Text::copy(shell.alloc, text.bytes())?),
        PartKind::Exact(text) => Ok(Text::copy(shell.alloc, text.bytes())?),
        PartKind::Double(parts) => quoted_text(shell, parts.as_slice()),
        PartKind::Param { .. } => Err(Stop::Unspecified),
    }
}

#[tactic(auto, using(bash_tree::proofs::Views::part_is))]
fn part_text(shell: &Shell, part: &Part) -> Result<Text, Stop>
    ensures { Gives (meaning.word_part (view_part part.now) shell.now.turns (state_of shell.now)) (state_of shell.now) shell.now.turns result }
{
    kind_text(shell, &part.kind)
}

/// The text of a word that isn't split.
pub fn word_text(shell: &Shell, word: &Word) -> Result<Text, Stop>
    ensures { Gives (meaning.word_text (view_word word.now) shell.now.turns (state_of shell.now)) (state_of shell.now) shell.now.turns result }
{
    let mut text = Text::new(shell.alloc);
    for part in word.parts.as_slice() {
        let piece = part_text(shell, part)?;
        text.append(piece.bytes())?;
    }
    Ok(text)
}

/// The fields of a command's words.
pub fn fields(shell: &Shell, words: &[Word]) -> Result<List<Text>, Stop>
    ensures { Gives (meaning.fields (words_of words.now) shell.now.turns (state_of shell.now)) (state_of shell.now) shell.now.turns result }
{
    let mut fields = List::new(shell.alloc);
    for word in words {
        let text = word_text(shell, word)?;
        fields.push(text)?;
    }
    Ok(fields)
}

/// What an assignment gives its variable.
pub fn value_text(shell: &Shell, value: &AssignValue) -> Result<Text, Stop>
    ensures { Gives (meaning.value_text (view_value value.now) shell.now.turns (state_of shell.now)) (state_of shell.now) shell.now.turns result }
{
    match value {
        AssignValue::Word(None) => Ok(Text::new(shell.alloc)),
        AssignValue::Word(Some(word)) => word_text(shell, word),
    }
}
