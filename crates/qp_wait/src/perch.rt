//! Where a lane parks.

ghost use Rattle.std.specs.Prelude.{◌≡◌, ◌++◌, ◌∷◌, [], length, IfOk, OnOk, OnErr};
ghost use Rattle.std.specs.Arc.{arc_value};
ghost use Rattle.crossbeam_utils.specs.Token.{parker_view};

use crossbeam_utils::sync::parker::Pass;
use qp_base::Memory;
use qp_wait_bells::{Bell, Notes, park_once};
use std::sync::Wait;

/// The parker of the object that a lane serves, with the places, from 0, of the looks that found its queue empty before each park.
#[derive(Drop)]
pub struct Perch {
    pub object: u8,
    pub bell: Bell,
    pub pass: Pass<Notes>,
    pub parks: Vec<u32>,
    ghost own: { pass.table_id ≡ (arc_value bell.unparker.state).shared.table_id },
    ghost given: { (parker_view pass).given ≡ 0 },
    ghost parked: { (parker_view pass).parks ≡ length parks.items },
}

impl Perch {
    /// Parks behind the look at this place, until a note is there. Where the list of places can't grow it doesn't park.
    pub fn park<R: Wait>(&mut self, rt: &R, place: u32) -> Result<(), Memory>
        ensures object { self.new.object ≡ self.old.object }
        ensures parked { OnOk result (self.new.parks.items ≡ self.old.parks.items ++ place ∷ []) }
        ensures refused { OnErr result (self.new.parks.items ≡ self.old.parks.items) }
    {
        let Ok(()) = self.parks.push(place) else {
            return Err(Memory);
        };
        park_once(rt, &self.bell, &mut self.pass);
        Ok(())
    }
}
