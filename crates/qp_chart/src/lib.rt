//! Charts: the values of expressions, and the check that makes a chart of what a file says. Their language is qp_chart_text, and what they may name qp_chart_names.
#![tactic(auto)]

mod actions;
mod binding;
mod check;
mod checked;
pub mod crossing;
mod evaluate;
mod expression;
mod parents;
mod resolve;
mod state_check;
mod statements;
pub mod tree_laws;

pub use actions::{Act, Acts, Plain, Plains, Target};
pub use binding::{BindFault, bind};
pub use checked::{Chart, Row, Rows, State, States, Timer, Timers};
pub use evaluate::{Env, eval};
pub use expression::{Bound, BoundExprs, Node};
pub use qp_chart_names::{
    ChartFault, Names, ObjName, ObjNames, Part, Path, RawChart, RawRow, RawRows, RawState,
    RawStates, RawTimer, RawTimers, SigName, SigNames, Vars, code, key,
};
pub use qp_chart_text::{
    Action, Binary, EventTree, Expr, ExprFault, Exprs, Name, PlainAction, PlainActions, Receiver,
    Text, Texts, Unary, one_action, one_expression, read_action, read_expr,
};
