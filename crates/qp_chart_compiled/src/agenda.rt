//! Agendas: what is left of a start or a step.

/// What is left of a start or a step. It is two places in the compiled chart that made it, and means nothing to another.
#[derive(Clone, Copy)]
pub struct Agenda {
    pub(crate) from: usize,
    pub(crate) to: usize,
}

/// A whole agenda, and the leaf after it.
#[derive(Clone, Copy)]
pub(crate) struct Plan {
    pub agenda: Agenda,
    pub leaf: u8,
}
