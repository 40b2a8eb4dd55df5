//! What each line of a trace is read as.

ghost use Rattle.trace_laws.specs.Laws.{LawOutcome, LawWon, LawCommitted, LawSent, LawFramed, LawState, LawDelivery, LawNote, LawEcho, LawTrace};

/// The line of an act is read as that act, of its node and with its ending; the line `record` as an opening.
pub fn law_outcome()
    ensures { LawOutcome }
{}

/// The line `won` is read as an election that was won, with its node and its term.
pub fn law_won()
    ensures { LawWon }
{}

/// The line `committed` is read as a state that the node of the last line of the schedule commits.
pub fn law_committed()
    ensures { LawCommitted }
{}

/// The line of a message is read as the next message, with its ends.
pub fn law_sent()
    ensures { LawSent }
{}

/// The line of a frame is read as the next message, with its ends.
pub fn law_framed()
    ensures { LawFramed }
{}

/// The lines `down`, `up`, `crashed` and `disk` are read as what befalls their node.
pub fn law_state()
    ensures { LawState }
{}

/// The lines `unsent` and `misrouted` are read as what becomes of a delivery.
pub fn law_delivery()
    ensures { LawDelivery }
{}

/// The lines `mode`, `drop` and `reply` are read as what they tell of their node.
pub fn law_note()
    ensures { LawNote }
{}

/// The echo of a line of a schedule is read as that line: the node and the message of a delivery, and the node of any other.
pub fn law_echo()
    ensures { LawEcho }
{}

/// Lines one after another, each of which is read where it stands, are read whole.
pub fn law_trace()
    ensures { LawTrace }
{}
