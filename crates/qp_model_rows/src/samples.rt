//! What the tests of single definitions accept and refuse. Each function here does nothing: its contract is the facts.

ghost use Rattle.std.specs.Prelude.{◌≡◌, true, false, [], ◌∷◌};
ghost use Rattle.qp_model.specs.History.{lane_items};
ghost use Rattle.qp_model.specs.OneOrder.{stims_placed, last_is_free};
ghost use Rattle.qp_model.specs.End.{spills_state};
ghost use Rattle.qp_model.specs.Ends.{ends_last};
ghost use Rattle.qp_model.specs.Sources.{none_twice};
ghost use Rattle.qp_model_rows.specs.Lines.{look, took, done, budget_spent};
ghost use Rattle.qp_model_rows.specs.Systems.{go_twice};
ghost use Rattle.qp_model_rows.specs.Samples.{spill, thread, two_looks, two_threads, spilling, posts_in, turns_of, found_spent, spents_of};

/// Which source acts in a look: in cyclic order after the one that acted last, at first source 1; none that has nothing
/// left; a `settle` only where no step is under way. Each `stim` names a look, and a look has one at most.
pub fn sources_act_in_turn()
    ensures in_turn { turns_of (two_threads (posts_in 1 1) (posts_in 2 2)) ≡ true }
    ensures out_of_turn { turns_of (two_threads (posts_in 2 2) (posts_in 1 1)) ≡ false }
    ensures left_out { turns_of (two_threads (posts_in 1 1) []) ≡ false }
    ensures both_at_once { turns_of (two_threads (posts_in 1 1) (posts_in 1 2)) ≡ false }
    ensures in_no_look { stims_placed (two_threads (posts_in 1 1) (posts_in 3 2)) ≡ false }
    ensures in_looks { stims_placed (two_threads (posts_in 1 1) (posts_in 2 2)) ≡ true }
{}

/// A `spill` of a source behind its whole stimulus is put at the end, and the last look has no stimulus; within its stimulus
/// nothing follows it. Where a `spill` stands the last look may lack its stimulus.
pub fn a_spill_of_a_source()
    ensures at_the_end { turns_of (spilling two_looks) ≡ true }
    ensures last_is_free { last_is_free (spilling two_looks) (1 ∷ 2 ∷ []) ≡ true }
    ensures last_is_not { last_is_free (spilling (look 0 1 0 ∷ [])) (1 ∷ []) ≡ false }
    ensures missing { turns_of (thread go_twice two_looks (posts_in 1 1 ∷ []) false) ≡ false }
{}

/// A `spill` states the number of records before it, which exceeds 999,992.
pub fn a_spill_states_its_place()
    ensures enough { spills_state 999993 (lane_items (spill 999993 ∷ [])) ≡ true }
    ensures too_few { spills_state 999992 (lane_items (spill 999992 ∷ [])) ≡ false }
    ensures another { spills_state 999993 (lane_items (spill 999994 ∷ [])) ≡ false }
    ensures behind { ends_last (lane_items (spill 999993 ∷ done 1 ∷ [])) ≡ false }
{}

/// A `spent` follows a `seen` of its object's queue with an entry, in the object's home lane, and the object has then taken
/// just its budget.
pub fn a_spent_stands_at_the_budget()
    ensures at_budget { spents_of 1 (found_spent 2 ∷ []) ≡ true }
    ensures below_budget { spents_of 2 (found_spent 2 ∷ []) ≡ false }
    ensures seen_empty { spents_of 1 (found_spent 1 ∷ []) ≡ false }
    ensures not_seen { spents_of 1 ((took 1 1 0 1 0 4 0 ∷ budget_spent 1 ∷ []) ∷ []) ≡ false }
    ensures elsewhere { spents_of 1 ([] ∷ found_spent 2 ∷ []) ≡ false }
{}

/// No two tries of a source end with the same `seen`.
pub fn tries_differ()
    ensures same { none_twice ((1 ∷ 1 ∷ 0 ∷ 0 ∷ []) ∷ (1 ∷ 1 ∷ 0 ∷ 0 ∷ []) ∷ []) ≡ false }
    ensures other { none_twice ((1 ∷ 1 ∷ 0 ∷ 0 ∷ []) ∷ (1 ∷ 2 ∷ 0 ∷ 1 ∷ []) ∷ []) ≡ true }
{}
