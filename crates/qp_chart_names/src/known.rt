//! Whether the names of an expression are known.

ghost use Rattle.std.specs.Prelude.{◌≡◌};
ghost use Rattle.std.specs.List.{list_any};
ghost use Rattle.qp_chart_text.specs.Terms.{term_of};
ghost use Rattle.qp_chart_names.specs.Known.{has_name, words, knows};

use qp_chart_text::{Expr, Name};

/// Whether each variable of the expression is one of `vars`.
#[tactic(auto, unfolding(qp_chart_text::specs::Terms::term_of, crate::specs::Known::knows))]
pub fn is_known(e: &Expr, vars: &[Name]) -> bool
    ensures { result ≡ knows (words vars.now) (term_of e.now) }
{
    match e {
        Expr::Num(_) | Expr::Ok | Expr::Me | Expr::Par(_) => true,
        Expr::Var(name) => has_name(name, vars),
        Expr::One(_, x) => is_known(x, vars),
        Expr::Two(_, x, y) => {
            let left = is_known(x, vars);
            left && is_known(y, vars)
        }
    }
}

// Whether a name is among the variables.
fn has_name(name: &Name, vars: &[Name]) -> bool
    ensures { result ≡ list_any (has_name name.now) vars.now }
{
    vars.iter().any(|v| v == name)
}
