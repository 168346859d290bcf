//! Which row of the table answers a call, and how.

ghost use Rattle.std.specs.Prelude.{◌≡◌, [], MatchOption};
ghost use Rattle.shell_world.specs.Calls.{is_called, fits_key, fits_input, fits, chosen_from, answer_at, is_row, times};

use crate::world::{Answer, Call, Row, RowInput, RowKey};
use span_text::Text;

fn is_called(name: &[u8], argv: &[Text]) -> bool
    ensures { result ≡ is_called name.now argv.now }
{
    match argv {
        [] => false,
        [first, ..] => name == first.bytes(),
    }
}

fn fits_key(key: &RowKey, argv: &[Text]) -> bool
    ensures { result ≡ fits_key key.now argv.now }
{
    match key {
        RowKey::Whole(words) => words.as_slice() == argv,
        RowKey::Name(name) => is_called(name.bytes(), argv),
    }
}

fn fits_input(rule: &RowInput, input: &[u8]) -> bool
    ensures { result ≡ fits_input rule.now input.now }
{
    match rule {
        RowInput::Nothing => true,
        RowInput::Any => true,
        RowInput::Exactly(text) => text.bytes() == input,
    }
}

fn fits(row: &Row, argv: &[Text], input: &[u8]) -> bool
    ensures { result ≡ fits row.now argv.now input.now }
{
    fits_key(&row.key, argv) && fits_input(&row.input, input)
}

/// The first row that fits these arguments and the input that is left, with its index.
pub fn choose<'t>(rows: &'t [Row], argv: &[Text], input: &[u8]) -> Option<(usize, &'t Row)>
    ensures { MatchOption result (chosen_from 0 rows.now argv.now input.now ≡ None) (λ r. chosen_from 0 rows.now argv.now input.now ≡ Some (r.0, r.1.now)) }
{
    for (i, row) in rows.iter().enumerate() {
        if fits(row, argv, input) {
            return Some((i, row));
        }
    }
    None
}

fn is_row(call: &Call, row: usize) -> bool
    ensures { result ≡ is_row row call.now.row }
{
    match call.row {
        None => false,
        Some(i) => i == row,
    }
}

/// How many of these calls the row has answered.
pub fn times(row: usize, calls: &[Call]) -> usize
    ensures { result ≡ times row calls.now }
{
    calls.iter().filter(|call| is_row(call, row)).count()
}

/// The answer of this turn, from 0: the last one repeats.
pub fn answer_at(turn: usize, answers: &[Answer]) -> Option<&Answer>
    ensures { MatchOption result (answers.now ≡ []) (λ a. answer_at turn answers.now ≡ a.now) }
{
    if answers.is_empty() {
        return None;
    }
    Some(&answers[turn.min(answers.len() - 1)])
}
