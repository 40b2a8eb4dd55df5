//! What holds of every generated schedule.

ghost use Rattle.schedule_generator.specs.Laws.{LawGeneratedIsSpelled};

/// The text of each generated schedule spells that schedule at level core, where each line sends one message at most.
pub fn law_generated_is_spelled()
    ensures { LawGeneratedIsSpelled }
{}
