//! Laws of the grammar.

ghost use Rattle.qp_chart_text.specs.Terms.{Term, Command};
ghost use Rattle.std.specs.Prelude.{◌≡◌, ℕ, List};
ghost use Rattle.qp_chart_text.specs.Grammar.{IsExprText};
ghost use Rattle.qp_chart_text.specs.ActionGrammar.{IsActionText};

/// A text is one expression at most.
pub fn one_expression()
    ensures { (text : List ℕ) (x y : Term) → IsExprText text x → IsExprText text y → x ≡ y }
{}

/// A text is one action at most.
pub fn one_action()
    ensures { (text : List ℕ) (x y : Command) → IsActionText text x → IsActionText text y → x ≡ y }
{}
