//! The lane of a source that becomes full.

use crate::stimuli_shown::trial_of;
use qp_base::NoGate;
use std::test::Fail;

/// A stimulus or a part of one that finds more than 999,992 records isn't begun: the lane has its `spill` then, and stops with 6.
const CASES: [(&str, u32, &str); 5] = [
    ("source 1\ntick 3", 999_993, "spill 0 999993, stopped 6"),
    (
        "source 1\npost lamp GO",
        999_992,
        "stim 0 1 0, spill 0 999993, stopped 6",
    ),
    (
        "source 1\ntick 3\ntick 3\ntick 3\ntick 3",
        999_990,
        "stim 0 1 0, stim 0 2 0, stim 0 3 0, spill 0 999993, stopped 6",
    ),
    (
        "source 1\nsettle",
        999_992,
        "stim 0 1 0, spill 0 999993, stopped 6",
    ),
    (
        "source 1\nsettle",
        999_991,
        "stim 0 1 0, settle 0, spill 0 999993, stopped 6",
    ),
];

#[test]
fn a_full_lane_spills(rt: HostRuntime) -> Result<(), Fail> {
    for (stimuli, count, wanted) in &CASES {
        let text = trial_of(rt.alloc(), stimuli, *count, &NoGate)?;
        if text.as_str() != *wanted {
            return Err(Fail::new(format_args!("{stimuli} behind {count}: {text}")));
        }
    }
    Ok(())
}
