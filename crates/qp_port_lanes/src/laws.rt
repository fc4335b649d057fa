//! Laws of sources that rest. Each function here does nothing: its contract is the law.

ghost use Rattle.qp_port_lanes.specs.Laws.{CursorsMayStop, CursorsStay, DoneCursorsEnd, NewCursorsStand};

/// A source that has begun nothing stands at its cursor in a new lane.
pub fn new_cursors_stand()
    ensures { NewCursorsStand }
{}

/// It stands there still where its lane has only seen more.
pub fn cursors_stay()
    ensures { CursorsStay }
{}

/// Its lane may end there where the run stops early.
pub fn cursors_may_stop()
    ensures { CursorsMayStop }
{}

/// Its lane is whole where no stimulus is left.
pub fn done_cursors_end()
    ensures { DoneCursorsEnd }
{}
