//! What is asked of a lane between its turns.

ghost use Rattle.std.specs.Prelude.{ℕ, ◌≡◌, ◌≤◌, Bool, IsTrue, true, false};
ghost use Rattle.qp_model.specs.WordLaw.{is_object};
ghost use Rattle.qp_calls.specs.LaneView.{Advances, LaneView};
ghost use Rattle.qp_calls.specs.Clauses.{Counted, Stopped};
ghost use Rattle.qp_calls_log.specs.Meeting.{IsTogether, Met};
ghost use Rattle.qp_port_phases.specs.Lanes.{Kept};
ghost use Rattle.qp_port_phases.specs.Passing.{PassesTo};
ghost use Rattle.qp_port_phases.specs.Rows.{CountsOn, Numbers, PassCounts};
ghost use Rattle.qp_port_phases.specs.Stopping.{Hears};

use crate::running::Worker;
use crate::seats::Serves;
use qp_calls::Counts;

/// What became of a `settle`.
#[derive(Drop)]
pub enum Passed {
    /// It is done.
    Yes,
    /// The queue of object `p` showed an entry at these counts.
    Found { p: u8, now: Counts },
    /// The lane has just stopped the run, or the stop word was found set.
    Stopped,
    /// Memory was refused.
    Memory,
}

/// The lane of a worker, between its turns.
///
/// A worker that has ended is a lane like another: it is met and looked at, and its turns do nothing.
pub trait PhaseLane: Worker {
    /// What the lane has seen.
    ghost view: { Self → LaneView };

    /// Whether it stands at a `settle`.
    ghost waits: { Self → Bool };

    /// Whether it has a stimulus left.
    ghost remains: { Self → Bool };

    /// Its rows of looks without a step, the `settle`s that it has passed, and whether memory was refused to it.
    ghost numbers: { Self → Numbers };

    /// The same lane, of the same object or source.
    ghost same: { Self → Self → Type 0 };

    /// Whether its last turn, or its start, came to its end. If not, it takes no more.
    ghost rests: { Self → Bool };

    /// Whether its turns come to the end of no row of looks without a step.
    ghost rowless: { Self → Bool };

    /// What it does where so many sources take a turn next.
    ghost called: { ℕ → Self → Self → Type 0 };

    /// This lane sees what the other has seen, which is of the same table.
    fn meet(&mut self, other: &mut Self)
        requires ready { Self.ready self.old }
        requires other_ready { Self.ready other.old }
        requires table { IsTogether (view self.old) (view other.old) }
        ensures meets { Met (view self.old) (view other.old) (view self.new) }
        ensures other { view other.new ≡ view other.old }
        ensures kept { Kept Self.ready same waits remains numbers self.old self.new }
        ensures other_kept { Kept Self.ready same waits remains numbers other.old other.new };

    /// Whether it stands at a `settle`.
    fn at_settle(&self) -> bool
        ensures { result ≡ waits self.now };

    /// Whether it has a stimulus left.
    fn left(&self) -> bool
        ensures { result ≡ remains self.now };

    /// Whether its last turn, or its start, came to its end.
    fn at_rest(&self) -> bool
        ensures { result ≡ rests self.now };

    /// Whether its turns come to the end of no row of looks without a step.
    fn is_rowless(&self) -> bool
        ensures { result ≡ rowless self.now };

    /// Whose entries it takes.
    fn serves(&self) -> Serves;

    /// So many sources take a turn next. No lane runs.
    fn on_round(&mut self, sources: u32)
        requires ready { Self.ready self.old }
        ensures called { called sources self.old self.new }
        ensures still { view self.new ≡ view self.old }
        ensures kept { Kept Self.ready same waits remains numbers self.old self.new };

    /// Passes the `settle`, or tries to. `Yes` exactly where it is done, `Found` exactly where a look of this call showed that queue at these
    /// counts.
    fn pass_settle(&mut self) -> Passed
        requires ready { Self.ready self.old }
        requires waits { waits self.old ≡ true }
        ensures ready { Self.ready self.new }
        ensures same { same self.old self.new }
        ensures passes { PassesTo (view self.old) (view self.new) result }
        ensures hands { (view self.new).hands ≡ (view self.old).hands }
        ensures numbers { PassCounts (numbers self.old) (numbers self.new) result };

    /// Looks at a queue, and adds nothing.
    fn counts(&mut self, p: u8) -> Counts
        requires ready { Self.ready self.old }
        requires object { IsTrue (is_object (view self.old).sys p) }
        ensures counted { Counted p (view self.old) (view self.new) result }
        ensures kept { Kept Self.ready same waits remains numbers self.old self.new };

    /// The code in the stop word. None exactly where it is 0.
    fn stopped(&mut self) -> Option<u8>
        requires ready { Self.ready self.old }
        ensures stopped { Stopped (view self.old) (view self.new) result }
        ensures kept { Kept Self.ready same waits remains numbers self.old self.new };

    ghost same_itself: { (a : Self) → same a a };

    ghost same_still: { (a b c : Self) → same a b → same b c → same a c };

    /// It stays in its table.
    ghost same_table: { (a b : Self) → same a b → IsTogether (view a) (view b) };

    /// It forgets no code that it heard of.
    ghost same_hears: { (a b : Self) → same a b → Hears (view a) (view b) };

    /// Its records come behind those that it had, with marks from what it knew of each word to what it knows.
    ghost same_advances: { (a b : Self) → same a b → Advances (view a) (view b) };

    /// A turn leaves a lane that may take another, and the same.
    ghost went: { (a b : Self) → Self.Worker.turned a b → Self.Worker.ready b × same a b };

    /// It comes to the end of one row of looks without a step at most, and of none where the lane has just seen an entry.
    ghost went_on: { (a b : Self) → Self.Worker.turned a b → CountsOn (view a) (numbers a) (numbers b) };

    ghost went_rowless: { (a b : Self) → Self.Worker.turned a b → rowless a ≡ true → (numbers b).lost ≡ false → (numbers b).rows ≤ (numbers a).rows };
}
