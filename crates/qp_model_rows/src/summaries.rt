//! Journals with their summaries. Each function here does nothing: its contract is the fact.

ghost use Rattle.qp_model.specs.OutputSummary.{IsSummary};
ghost use Rattle.qp_model_rows.specs.Journals.{switched};
ghost use Rattle.qp_model_rows.specs.Summaries.{named_lamp, switched_summary};

/// A lamp that was switched on has taken one event and stands in its second state.
pub fn a_lamp_is_on()
    ensures { IsSummary named_lamp switched switched_summary }
{}
