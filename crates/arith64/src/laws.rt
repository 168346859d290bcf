//! What holds of all texts.

ghost use Rattle.std.specs.Prelude.{◌≡◌, List};
ghost use Rattle.span_text.specs.declared.expr.Expr.{Expr};
ghost use Rattle.span_text.specs.ExprTokens.{Cell};
ghost use Rattle.span_text.specs.Expressions.{Spells};

/// A text spells at most one expression.
pub fn one_expression()
    ensures { (cells : List Cell) (a b : Expr) → Spells cells a → Spells cells b → a ≡ b }
{}
