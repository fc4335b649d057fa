//! What there is only one of, and which journals have which form.
#![tactic(auto)]

pub mod form_laws;
pub mod journal_laws;
pub mod laws;
pub mod port_form_laws;
