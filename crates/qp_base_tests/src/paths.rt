//! Paths of faults as text.

use qp_chart::{Part, Path, key};
use std::alloc::Global;

/// Paths in two parts, and their texts.
const PATHS: [(&[Part], &[Part], &str); 3] = [
    (
        &[
            Part::Key(key::CHART),
            Part::Pos(1),
            Part::Key(key::STATE),
            Part::Pos(2),
        ],
        &[
            Part::Key(key::ROW),
            Part::Pos(1),
            Part::Key(key::DO),
            Part::Pos(3),
        ],
        "chart.1.state.2.row.1.do.3",
    ),
    (&[], &[Part::Key(key::THRESHOLD)], "threshold"),
    (&[], &[], ""),
];

/// Whether a path is printed so. A path has at most eight parts.
fn is_printed(alloc: Global, front: &[Part], rest: &[Part], text: &str) -> bool {
    if front.len() > 8 || rest.len() > 8 - front.len() {
        return false;
    }
    match Path::of(front, rest).to_string(alloc) {
        Ok(shown) => shown.as_str() == text,
        Err(_) => false,
    }
}

/// Keys are printed by their words, places as numbers, with dots between.
#[test]
fn paths_print_as_words_and_places(rt: HostRuntime) {
    for (front, rest, text) in &PATHS {
        assert!(rt; is_printed(rt.alloc(), front, rest, text), "{text}");
    }
}
