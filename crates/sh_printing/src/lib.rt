//! Which scripts of sh can be printed, and as what text (POSIX 2.10): definitions and laws, no code.
//!
//! It promises in `laws` that what is printed of a script reads as the script, by `sh_grammar`'s relation `Reads`,
//! and that each script that some text spells can be printed.
//!
//! Read in `specs`: `Printing`, the text of each node, where the bodies of here-documents stand behind the next newline,
//! be it one behind a `$(`; over `Marks` (quotes, parameters, redirections, ends), `Sums` (arithmetic, and where it needs
//! parentheses) and `Delimiters` (`E` and the least number such that no line of the body is it). Then `Printable`, over
//! `Spellable`: the scripts that some text spells, so deep and each in its place. `Examples` has scripts with their texts.
//!
//! Of `proofs` read `BackScripts` (the law), then the induction: `BackTree` over lists and commands, `BackSimpleTree`
//! over simple commands and redirections, `BackWordTree` over words, where `BackInner` names the lists in them;
//! `BackDue` and `BackNamed` say which body is read where. `BackBounds` shows that no body has its delimiter as a line.
//! The `Exact` files are the other way: `ExactRules` (induction over derivations), `ExactClaims` (what each rule says),
//! a file for each kind of construct, and `ExactScripts` (the law).
//! Every other `Back` file is about one node or one of its places; `BackExamples` and `HereExamples` are worked out.
#![tactic(auto)]

mod laws;

pub use laws::{reads_back, spelled_is_printable};
