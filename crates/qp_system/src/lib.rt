//! The reader of system files: a system, or the first fault of the file and its place. And systems and stimuli that a number makes.
#![tactic(auto)]

mod between;
mod charts;
mod checked;
mod defs;
mod files;
pub mod laws;
mod made;
mod phases;
mod placing;
mod system;
mod twice;

pub use checked::checked_of_bytes;
pub use made::generate;
pub use qp_system_tables::{
    RawCharts, RawObject, RawObjects, RawSystem, SystemFault, raw_of_bytes,
};
pub use system::system_of_bytes;
