//! The laws of what is printed.

ghost use Rattle.std.specs.Prelude.{◌≡◌, ◌<◌, ◌^◌, true, length};
ghost use Rattle.sh_grammar.specs.Bytes.{Text};
ghost use Rattle.sh_grammar.specs.Shape.{Script};
ghost use Rattle.sh_grammar.specs.Spelling.{Reads};
ghost use Rattle.sh_printing.specs.Printable.{script_printable};
ghost use Rattle.sh_printing.specs.Printing.{printed};

/// What is printed of a script that can be printed reads as the script. The text is below 2^32 bytes, as is all that
/// spans speak of, so each body in it has fewer lines than there are delimiters.
#[tactic(auto, using(crate::proofs::BackScripts::reads_back))]
pub fn reads_back()
    ensures { (s : Script) → script_printable s ≡ true → length (printed s) < 2 ^ 32 → Reads (printed s) s }
{}

/// What some text spells can be printed.
#[tactic(auto)]
pub fn spelled_is_printable()
    ensures { (text : Text) (s : Script) → Reads text s → script_printable s ≡ true }
{}
