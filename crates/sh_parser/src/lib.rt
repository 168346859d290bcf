//! The exact reader of sh: a text gives its script, or the place where it stops being sh.
//!
//! To follow a text, read `script` (its lines, and the public call), `reader` over `tasks` (the loop over what is still to
//! be read), `knowing` (the bodies of here-documents), `rules` over `units` and `table` (what each rule is made of), `ahead`
//! over `keys`, `tokens` and `class` (what comes next), `direct` (words that need no tasks), `taking` over `steps`, `leaves`,
//! `redirects` and `sum_steps` (what is read at once), and `acts` over `picking` and `values` (what a rule makes of it).
#![tactic(auto)]

mod acts;
mod ahead;
mod bodies;
mod class;
mod delimiters;
mod direct;
mod fault;
mod gaps;
mod keys;
mod knowing;
mod leaves;
mod names;
mod notes;
mod open_sum;
mod params;
mod picking;
mod reader;
mod redirects;
mod rules;
mod runs;
mod script;
mod steps;
mod sum_steps;
mod sums;
mod table;
mod taking;
mod tasks;
mod tokens;
mod units;
mod values;

pub use fault::ReadFault;
pub use script::read;
