//! The language of charts: names and texts, and the trees of expressions and actions that texts are read to.
#![tactic(auto)]

mod action_parser;
mod grammar_laws;
mod names;
mod operators;
mod parser;
mod phrases;
mod text;
mod tokens;
mod trees;

pub use action_parser::read_action;
pub use grammar_laws::{one_action, one_expression};
pub use names::Name;
pub use operators::{Binary, Unary};
pub use parser::read_expr;
pub use text::{Text, Texts};
pub use trees::{Action, EventTree, Expr, ExprFault, Exprs, PlainAction, PlainActions, Receiver};
