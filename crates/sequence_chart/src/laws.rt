//! What holds of the chart of every trace.

ghost use Rattle.sequence_chart.specs.Laws.{LawEachDelivery, LawEachLabel};

/// Each delivery of a message that was sent before has an arrow, from the row of the message's line to its own.
pub fn law_each_delivery()
    ensures { LawEachDelivery }
{}

/// Each act, and each other line that has a label, has its words and the whole line at its node's lifeline.
pub fn law_each_label()
    ensures { LawEachLabel }
{}
