//! The tests of schedule_text, schedule_generator, trace_text, trace_summary, trace_reader, sequence_chart, command_line,
//! event_text. They stand apart, so that a check of one of these, or of what stands on it, does not prove them again.
#![tactic(auto)]

#[cfg(test)]
mod begun_text;
#[cfg(test)]
mod command_line_tests;
#[cfg(test)]
mod event_text_tests;
#[cfg(test)]
mod long_lists;
#[cfg(test)]
mod names;
#[cfg(test)]
mod schedule_generator_tests;
#[cfg(test)]
mod schedule_text_tests;
#[cfg(test)]
mod sequence_chart_tests;
#[cfg(test)]
mod trace_reader_tests;
#[cfg(test)]
mod trace_summary_tests;
#[cfg(test)]
mod trace_text_tests;
