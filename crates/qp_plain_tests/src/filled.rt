//! A kernel's lane that gets full.

use crate::reading::{is_word, played};
use qp_base::NoGate;
use qp_dispatch::Turn;
use qp_model::Lanes;
use std::test::Fail;

/// An object that posts itself an event for each that it takes.
const LOOP: &str = "qp = 1
signal = [{ name = 'GO', static = true }]
object = [{ name = 'wheel', chart = 'c', priority = 1, queue = 1 }]
[[chart]]
name = 'c'
init = 's'
init_do = ['post wheel GO']
state = [{ name = 's', row = [{ on = 'GO', do = ['post wheel GO'] }] }]
";

/// Whether the last record of lane 0 is a `spill` that states the records before it.
fn is_spilled(lanes: &Lanes) -> bool {
    let Some(lane) = lanes.items.first() else {
        return false;
    };
    let Some(last) = lane.items.last() else {
        return false;
    };
    let before = (lane.items.len() as u64).saturating_sub(1);
    is_word(last, "spill") && last.nums.as_slice() == [before].as_slice() && before > 999_992
}

/// A full lane tells its `spill`, and hands in 6: it isn't told as want of memory.
#[test]
fn a_full_lane_spills_and_stops_with_6(rt: HostRuntime) -> Result<(), Fail> {
    let left = played(&rt, rt.alloc(), LOOP, "source 1\n", &NoGate)?;
    assert!(rt; matches!(left.turn, Turn::Stopped) && left.code == Some(6));
    assert!(rt; is_spilled(&left.lanes));
    Ok(())
}
