//! Which values may go to another thread, and which may be read by several threads at once.

use crate::checked::Chart;
use crate::expression::Bound;
use qp_chart_names::{Names, Path, RawChart};
use qp_chart_text::Expr;

fn crosses<T: Send + Sync>() {}

/// A chart may go to another thread, and several threads may read it at once.
pub fn charts_cross_threads() {
    crosses::<Chart>();
}

/// Expressions, what a file says of a chart, and places likewise.
pub fn texts_cross_threads() {
    crosses::<RawChart>();
    crosses::<Names>();
    crosses::<Expr>();
    crosses::<Bound>();
    crosses::<Path>();
}
