//! Whether an object's records follow its chart.
#![tactic(auto)]

mod agenda;
pub mod course_laws;
mod decide;
mod deeds;
mod handler;
mod notes;
mod reading;
mod runs;
mod settle;
mod standing;
mod state_acts;
mod states;
mod tasks;
mod tell;

pub use agenda::{Plan, start_plan, step_plan};
pub use decide::{chart_at, follows, follows_with_points};
pub use reading::CourseReading;
pub use standing::Standing;
pub use tasks::CourseTask;
