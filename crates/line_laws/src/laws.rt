//! What each line of a trace is read as by an audit.

ghost use Rattle.line_laws.specs.Read.{LawAct, LawEcho, LawEvent, LawNode, LawRecord, LawShown, LawTrace};

/// The line of an act is read as that act, whole: with its node, its ending and all its values.
pub fn law_act()
    ensures { LawAct }
{}

/// The line of a record is read as the record that it shows, of its node.
pub fn law_record()
    ensures { LawRecord }
{}

/// The echo of a line of a schedule is one line, which is skipped.
pub fn law_echo()
    ensures { LawEcho }
{}

/// The lines `won` and `committed` and those of messages are skipped.
pub fn law_shown()
    ensures { LawShown }
{}

/// The lines `down`, `up`, `crashed`, `disk`, `unsent` and `misrouted` are skipped.
pub fn law_node()
    ensures { LawNode }
{}

/// The lines `mode`, `drop` and `reply` and those of frames are skipped.
pub fn law_event()
    ensures { LawEvent }
{}

/// Such lines after a line `initial` are read whole, as the entries that they show in their order.
pub fn law_trace()
    ensures { LawTrace }
{}
