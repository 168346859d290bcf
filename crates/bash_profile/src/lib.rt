//! The profile of Bash: of what kind each name of a script is, and what of a script is refused (Bash manual, sections 3 to 6).
//! Definitions, no code.
//!
//! Read in `specs`: `Sites`, all nodes of a script with what is around them; `Cells` and `Literals`, words as they are written;
//! `Braces`, the words that braces give; `Kinds`, the kinds of names, functions and local names. Then `Refusals`: the table of codes,
//! all refusals of a script, and the first of them. The codes are defined in `Refused` (what the grammar refuses), `Commands`,
//! `Lists`, `Names`, `Written`, `Bracing`, `Arrays` and `Effects`, over `Known` (what one code asks of the whole script).
//! `KindExamples` and the files beside it have texts that are worked out, over `Worked`.
#![tactic(auto)]
