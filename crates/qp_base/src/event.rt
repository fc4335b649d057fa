//! Events.

use arrayvec::ArrayVec;

/// An event: its signal and its parameters. A static event has none.
#[derive(Drop)]
pub struct Ev {
    pub sig: u16,
    pub pars: ArrayVec<u64, 8>,
}
