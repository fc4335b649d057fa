//! Laws on the order of lanes. Each function here does nothing: its contract is the law.

ghost use Rattle.qp_model_order.specs.LaneLaws.{LanesStandInAnyOrder, NeighboursChangePlaces, EmptyLanesAreNoMatter, HistoriesStayInAnyOrder, SameRecordsInAnyOrder};

/// Lanes that meet the law of words meet it in any order.
pub fn lanes_stand_in_any_order()
    ensures { LanesStandInAnyOrder }
{}

/// Two neighbours may change places.
pub fn neighbours_change_places()
    ensures { NeighboursChangePlaces }
{}

/// A lane without records may be added, or left out.
pub fn empty_lanes_are_no_matter()
    ensures { EmptyLanesAreNoMatter }
{}

/// A word whose numbers are drawn once each has one history, in whatever order the lanes stand.
pub fn histories_stay_in_any_order()
    ensures { HistoriesStayInAnyOrder }
{}

/// Each test is passed by as many records, and what holds of each record holds of each.
pub fn same_records_in_any_order()
    ensures { SameRecordsInAnyOrder }
{}
