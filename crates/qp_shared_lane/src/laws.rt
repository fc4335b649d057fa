//! Laws of lanes. Each function here does nothing: its contract is the law.

ghost use Rattle.qp_shared_lane.specs.Laws.{RecordsKeepTheLane, TableRecordsKeepTheLane, SideRecordsKeepTheLane, NotesKeepTheLane, LooksKeepTheLane, LogsKeepTheLane, SpareGivesRoom, HandsStand, LanesTellTheirLogs, OwnMembersAreKnown, WorldsNameTables};

/// A record more keeps what ties a lane's records to what it knows, and is all that the lane gains.
pub fn records_keep_the_lane()
    ensures { RecordsKeepTheLane }
{}

/// So does a step on one word of the event table.
pub fn table_records_keep_the_lane()
    ensures { TableRecordsKeepTheLane }
{}

/// So does one on one word of the side table.
pub fn side_records_keep_the_lane()
    ensures { SideRecordsKeepTheLane }
{}

/// And a note.
pub fn notes_keep_the_lane()
    ensures { NotesKeepTheLane }
{}

/// A look without a record keeps it too.
pub fn looks_keep_the_lane()
    ensures { LooksKeepTheLane }
{}

/// So do spare and codes.
pub fn logs_keep_the_lane()
    ensures { LogsKeepTheLane }
{}

/// The name of a lane's world names both tables and how many lanes there are.
pub fn worlds_name_tables()
    ensures { WorldsNameTables }
{}

/// A lane with spare has room on both tables.
pub fn spare_gives_room()
    ensures { SpareGivesRoom }
{}

/// A token in the hands stands in the lane's view.
pub fn hands_stand()
    ensures { HandsStand }
{}

/// A lane tells the records of its log.
pub fn lanes_tell_their_logs()
    ensures { LanesTellTheirLogs }
{}

/// What a lane's seat on the side table knows of its subscribers is what the lane's records say.
pub fn own_members_are_known()
    ensures { OwnMembersAreKnown }
{}
