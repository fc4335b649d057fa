//! All trials.

use crate::compiled_actions::CHAIN;
use crate::guards::ROWS;
use crate::samples::{Trial, wrong};
use crate::transitions::DIRECTIONS;

const TRIALS: &[Trial] = &[CHAIN, ROWS, DIRECTIONS];

#[test]
fn starts_and_steps_have_their_tasks(rt: HostRuntime) {
    for trial in TRIALS {
        let wrong = wrong(rt.alloc(), trial);
        assert!(rt; wrong.is_none(), "{wrong:?}");
    }
}
