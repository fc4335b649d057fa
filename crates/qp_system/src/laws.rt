//! Laws of reading system files. Each function here does nothing: its contract is the law.

ghost use Rattle.qp_system.specs.SystemLaw.{SystemsAreSound, SystemsHaveNoFault, RefusalsAreOne, SystemsAreOne};

/// The system of a file keeps the limits of its file, and its parts fit together.
pub fn systems_are_sound()
    ensures { SystemsAreSound }
{}

/// Bytes that are a system are refused for want of memory alone.
pub fn systems_have_no_fault()
    ensures { SystemsHaveNoFault }
{}

/// Bytes are refused in one way, want of memory aside.
pub fn refusals_are_one()
    ensures { RefusalsAreOne }
{}

/// The bytes of a file are one system.
pub fn systems_are_one()
    ensures { SystemsAreOne }
{}
