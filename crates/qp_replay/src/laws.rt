//! What is true of the orders that a replay answers.

ghost use Rattle.qp_replay.specs.Laws.{LawfulRecordsAreNamed, NamedOrdersAreSerial};

/// Each record of a lawful journal that touches a word touches one of the system, where the stimuli fit the system.
pub fn lawful_records_are_named()
    ensures { LawfulRecordsAreNamed }
{}

/// Where each record touches no word but the system's, the order is serial by the law book: all numbers are in it, of whatever word.
pub fn named_orders_are_serial()
    ensures { NamedOrdersAreSerial }
{}
