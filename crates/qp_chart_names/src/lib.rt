//! What a chart may name: charts as files have them, places and codes of faults, the numbers of names, and whether the texts
//! of a chart name what is declared and fit their places.
#![tactic(auto)]

pub mod code;
mod fault;
pub mod fit;
pub mod key;
pub mod known;
mod place;
mod places;
mod raw;
mod scope;
mod tables;

pub use fault::ChartFault;
pub use place::{Part, Path};
pub use raw::{
    Names, ObjName, ObjNames, RawChart, RawRow, RawRows, RawState, RawStates, RawTimer, RawTimers,
    SigName, SigNames, Vars,
};
pub use scope::Scope;
pub use tables::{Tables, tables_of};
