//! The laws of the spelling.

ghost use Rattle.std.specs.Prelude.{◌≡◌, ℕ, ◌+◌, List, length, Some, None};
ghost use Rattle.span_text.specs.declared.expr.Expr.{Expr};
ghost use Rattle.span_text.specs.declared.span.Span.{Span};
ghost use Rattle.span_text.specs.Expressions.{Apart, IsFirstBad, IsSpelled};
ghost use Rattle.bash_grammar.specs.Bytes.{Text, idle};
ghost use Rattle.bash_grammar.specs.Nodes.{Node, chains_in};
ghost use Rattle.bash_grammar.specs.Pieces.{nodes_from, stop_from};
ghost use Rattle.bash_grammar.specs.Shape.{Script};
ghost use Rattle.bash_grammar.specs.Spelling.{Reads, IsErrorAt};
ghost use Rattle.bash_grammar.specs.State.{start_at};
ghost use Rattle.bash_grammar.specs.Sums.{outcome, spelled, spoiled};

/// A text spells at most one script.
#[tactic(auto)]
pub fn one_script()
    ensures { (text : Text) (x y : Script) → Reads text x → Reads text y → x ≡ y }
{}

/// A text has one place behind its longest front of lines: where the error is, if it spells no script.
#[tactic(auto, using(crate::proofs::Pieces::has_error))]
pub fn one_place()
    ensures one { (text : Text) (p q : ℕ) → IsErrorAt text p → IsErrorAt text q → p ≡ q }
    ensures there { (text : Text) → (place : ℕ) × IsErrorAt text place }
{}

/// Reading piece by piece up to the end gives the script. Where that fails there is none, and the place of the error is
/// behind the last piece that reads.
#[tactic(auto, using(crate::proofs::Whole::reads_sound, crate::proofs::Whole::reads_complete, crate::proofs::Stops::stops_at))]
pub fn piecewise()
    ensures sound { (text : Text) (ns : List Node) → nodes_from (start_at text) ≡ Some ns → Reads text (chains_in ns) }
    ensures complete { (text : Text) (x : Script) → Reads text x → (ns : List Node) × (nodes_from (start_at text) ≡ Some ns) × (chains_in ns ≡ x) }
    ensures fails { (text : Text) → nodes_from (start_at text) ≡ None → (x : Script) → Reads text x → ⊥ }
    ensures place { (text : Text) (place : ℕ) → nodes_from (start_at text) ≡ None → place + length (idle (stop_from (start_at text)).bytes) ≡ length text → IsErrorAt text place }
{}

/// The expression of an arithmetic text is the one that it spells. Where it spells none, the place is the first at which no
/// expression goes on.
#[tactic(auto, using(crate::proofs::Outcomes::sum_sound))]
pub fn expressions()
    ensures sound { (text : Text) (operands : List Span) (e : Expr) → outcome text operands ≡ spelled e → IsSpelled text operands e }
    ensures complete { (text : Text) (operands : List Span) (e : Expr) → IsSpelled text operands e → outcome text operands ≡ spelled e }
    ensures fails { (text : Text) (operands : List Span) (at : ℕ) → outcome text operands ≡ spoiled at → (e : Expr) → IsSpelled text operands e → ⊥ }
    ensures place { (text : Text) (operands : List Span) (at : ℕ) → Apart 0 (length text) operands → outcome text operands ≡ spoiled at → IsFirstBad text operands at }
{}
