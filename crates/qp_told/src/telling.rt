//! What a lane tells its gate.

ghost use Rattle.std.specs.Prelude.{◌≡◌, List, [], ◌∷◌, ℕ};
ghost use Rattle.std.specs.Borrow.{ftrue};

use qp_base::Tells;
use std::marker::Model;

/// Steps that were told, as only contracts see them, the last one first. It takes no bytes.
#[derive(Drop)]
pub struct ToldSteps {
    pub ghost list: { List ℕ },
}

impl Model for ToldSteps {
    ghost also_owns = { λ _. ftrue };
}

impl ToldSteps {
    /// None.
    fn new() -> ToldSteps
        ensures { result.list ≡ [] }
    {
        ToldSteps {}
    }

    /// One more.
    fn with(_before: &ToldSteps, _step: &u64) -> ToldSteps
        ensures { result.list ≡ _step.now ∷ _before.now.list }
    {
        ToldSteps {}
    }
}

/// What a lane tells of its steps, and in proofs alone which it has told.
#[derive(Drop)]
pub struct Told<'a, G> {
    gate: &'a G,
    pub steps: ToldSteps,
}

impl<'a, G: Tells> Told<'a, G> {
    /// Nothing is told yet.
    pub fn new(gate: &'a G) -> Told<'a, G>
        ensures { result.steps.list ≡ [] }
    {
        Told {
            gate,
            steps: ToldSteps::new(),
        }
    }

    /// Tells one step more of the lane with this number.
    pub fn tells(&mut self, lane: u32, step: u64)
        ensures { self.new.steps.list ≡ step ∷ self.old.steps.list }
    {
        self.gate.tells(lane, step);
        self.steps = ToldSteps::with(&self.steps, &step);
    }
}
