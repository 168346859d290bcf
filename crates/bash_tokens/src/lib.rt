//! Bytes, tokens, names, quotes and delimiters of Bash text, as bash_grammar defines them.
//!
//! `spots`, `operators` and `keys` have the types; `class` and `literals` say what bytes are, `gaps` what is dropped before
//! tokens, `runs` what runs on; `tokens`, `words`, `names`, `dollars`, `quotes`, `delimiters`, `ticks` and `stretching` read.
//! Each function gives what the grammar's own definition gives.
#![tactic(auto)]

mod class;
mod delimiters;
mod dollars;
mod fault;
mod gaps;
mod keys;
mod literals;
mod names;
mod operators;
mod quotes;
mod runs;
mod spots;
mod stretching;
mod ticks;
mod tokens;
mod words;

pub use class::{
    expands, is_bare, is_body, is_digit, is_escaped, is_quote, is_quotes, is_special_param,
};
pub use delimiters::{Delimiter, delimiter_for, is_join};
pub use dollars::{
    ansi_next, behind_two, brace_name, brace_next, dollar_at, dollar_name, dollar_sum,
    expansion_next, length_name, locale_next, old_next, pointed_name, subst_next, sum_next,
};
pub use fault::Stop;
pub use gaps::{clear, gap, idle};
pub use keys::{Flag, Key};
pub use literals::{
    byte_next, is_byte, opens_glob, opens_process, quotes_dollar, unit_starts, unit_starts_in,
};
pub use names::{equals_at, name_at, name_end, tail, tilde_at, tilde_next, word_place};
pub use operators::{Control, Op, Redirection};
pub use quotes::{Ansi, ansi_at, quoted_run};
pub use runs::{Counted, Run, literal_in, run_at, run_end};
pub use spots::{Context, Quoting, Spot};
pub use stretching::{Stretch, stretch_run, stretches};
pub use ticks::{has_byte, ticks_at};
pub use tokens::{behind, is_control, is_redirection, is_token, starts_digit, starts_name, token};
pub use words::{
    command_next, compound_next, here_next, is_angle_token, is_binary_test, is_command_word,
    is_declaring_word, is_key, is_option, is_regex_test, is_unary_test, literal_end, parens_next,
    pipeline_next, redirect_next, simple_next, sum_command_next,
};

#[cfg(test)]
mod tests;
