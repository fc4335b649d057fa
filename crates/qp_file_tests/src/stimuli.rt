//! Stimuli: what each alternative of a line says.

use crate::samples::SIGNALS_OF_STIMULI;
use qp_model::{Source, Stim, Stimuli};
use qp_stim::stimuli_of_bytes;
use qp_system::system_of_bytes;
use std::alloc::Global;

/// Every alternative of a line.
const TEXT: &[u8] =
    b"source 1\npost top M(0,7) margin 2 reserve 255\npublish N(3)\nsource 2\n\n#\ntick 3\nsettle";

fn read(alloc: Global) -> Option<Stimuli> {
    let Ok(sys) = system_of_bytes(alloc, SIGNALS_OF_STIMULI.as_bytes()) else {
        return None;
    };
    match stimuli_of_bytes(alloc, &sys, TEXT) {
        Ok(stimuli) => Some(stimuli),
        Err(_) => None,
    }
}

/// Whether this posts M to the object of the priority 9.
fn is_post(stim: &Stim) -> bool {
    match stim {
        Stim::Post {
            to: 9,
            ev,
            margin: Some(2),
            reserve: Some(255),
        } => ev.sig == 6 && ev.pars.as_slice() == [0, 7].as_slice(),
        _ => false,
    }
}

/// Whether this publishes N.
fn is_publication(stim: &Stim) -> bool {
    match stim {
        Stim::Publish { ev, reserve: None } => {
            ev.sig == 5 && ev.pars.as_slice() == [3].as_slice()
        }
        _ => false,
    }
}

fn is_first(source: &Source) -> bool {
    match source.items.as_slice() {
        [post, publication] => is_post(post) && is_publication(publication),
        _ => false,
    }
}

fn is_second(source: &Source) -> bool {
    matches!(
        source.items.as_slice(),
        [Stim::Tick { rate: 3 }, Stim::Settle]
    )
}

fn are_read(stimuli: &Stimuli) -> bool {
    match stimuli.sources.as_slice() {
        [first, second] => is_first(first) && is_second(second),
        _ => false,
    }
}

/// Objects stand by their priority, and signals by their number.
#[test]
fn values(rt: HostRuntime) {
    let Some(stimuli) = read(rt.alloc()) else {
        assert!(rt; false, "no fault");
        return;
    };
    assert!(rt; are_read(&stimuli));
}
