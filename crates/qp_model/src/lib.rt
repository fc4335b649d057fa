//! Systems, stimuli and journals, and every definition of what makes a journal lawful.
#![tactic(auto)]

mod bodies;
pub mod courses;
pub mod crossing;
pub mod definitions;
mod ending;
pub mod ends;
mod journals;
pub mod kernels;
pub mod kinds;
pub mod laws;
mod lookups;
mod notes;
mod operations;
pub mod promises;
mod reading;
mod record;
mod stimulus;
pub mod stops;
mod systems;
mod telling;
mod touches;
pub mod vocabulary;
mod words;

pub use bodies::{Body, Entry, Params};
pub use journals::{Journal, Lane, Lanes};
pub use record::Rec;
pub use stimulus::{Source, Stim, Stimuli};
pub use systems::{
    Charts, ObjectDef, ObjectDefs, PoolDef, PoolDefs, SignalDef, SignalDefs, System, TimerDef,
    TimerDefs, Values,
};
pub use telling::{ceiling_after, is_assert, is_asserted, is_spent, is_spill, kinds_tell};
pub use touches::{Named, Touched};
pub use words::Word;
