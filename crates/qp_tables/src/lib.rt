//! Tables of cases, as files have them: blocks of lines, escaped bytes, changes of a text's lines, and runs by the names of their files.
#![tactic(auto)]

pub mod blocks;
pub mod changes;
pub mod escapes;
pub mod files;
pub mod runs;
