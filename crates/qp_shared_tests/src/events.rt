//! Events of a system.

ghost use Rattle.std.specs.Prelude.{◌≡◌, IfSome, slice_get, true};
ghost use Rattle.std.specs.Option.{option_map_or};
ghost use Rattle.qp_calls.specs.Clauses.{FitsPool, IsEvent, event_of};

use arrayvec::ArrayVec;
use qp_base::Ev;
use qp_model::System;

/// An event with one parameter, where the system has its signal with one.
pub(crate) fn event(sys: &System, sig: u16, par: u64) -> Option<Ev>
    ensures { IfSome result (λ ev. IsEvent sys.now (event_of ev)) }
{
    if sig < 4 {
        return None;
    }
    let signal = sys.signals.items.get(usize::from(sig) - 4)?;
    if signal.params != 1 {
        return None;
    }
    let mut pars = ArrayVec::new();
    pars.push(par);
    Some(Ev { sig, pars })
}

/// For how many parameters blocks of the first pool have room, 0 where there is none.
fn first_size(sys: &System) -> u8
    ensures { result ≡ option_map_or (λ d. d.size) (slice_get sys.now.pools 0) 0 }
{
    match sys.pools.items.get(0) {
        Some(pool) => pool.size,
        None => 0,
    }
}

/// Whether blocks of the first pool have room for the event.
pub(crate) fn fits_first(sys: &System, ev: &Ev) -> bool
    requires { IsEvent sys.now (event_of ev.now) }
    ensures { result ≡ true → FitsPool sys.now 1 (event_of ev.now) }
{
    let room = first_size(sys);
    let count = ev.pars.len();
    if count > usize::from(room) {
        return false;
    }
    room > 0
}
