//! What a seat on the side table knows.

use qp_table::View;
use std::collections::LinkedList;

/// What a seat on the side table knows. It stands in proofs alone: no value of it is made.
pub struct SideView {
    /// Its records, its numbers, the objects that it serves and what it saw. The other parts are empty.
    pub view: View,
    /// The codes that it handed in.
    pub stops: LinkedList<u64>,
    /// The codes that it found.
    pub answered: LinkedList<u64>,
}
