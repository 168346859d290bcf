//! The world that a run sees, and what both languages' meanings are made of.
//!
//! `world` has the types. `outside` is the state of a run: what is open (`description`), the files (`text_map`), and the
//! calls, which `table` answers. `specs/Runs` has the combinators of both meanings, `specs/World` what a good world is,
//! `specs/Outside` what is done through descriptors, `specs/Calls` the table of external commands.
#![tactic(auto)]

mod copies;
mod description;
#[cfg(test)]
mod descriptor_tests;
mod laws;
mod lines;
mod meter;
mod names;
mod opening;
mod outside;
#[cfg(test)]
mod path_tests;
mod paths;
#[cfg(test)]
mod steps;
mod table;
#[cfg(test)]
mod tests;
mod text_map;
mod world;

pub use copies::copy_texts;
pub use description::{Desc, Fds};
pub use laws::{files_stay_apart, names_are_told, outsides_stay_alike, texts_name_paths};
pub use lines::Line;
pub use meter::Meter;
pub use opening::{Found, OpenFault};
pub use outside::Outside;
pub use text_map::TextMap;
pub use world::{Answer, Bounds, Call, End, Latitude, Report, Row, RowInput, RowKey, World};
