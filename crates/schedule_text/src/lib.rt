//! Schedules as text: read whole or with the first bad line, and written again.
#![tactic(auto)]

mod fault;
mod laws;
mod level;
mod line_bytes;
mod line_ends;
mod lines;
mod modes;
mod place;
mod reading;
mod schedule;
mod setting_text;
mod words;
mod writing;

pub use fault::{BadSchedule, ReadError, WhyBad};
pub use laws::{law_first_bad_line, law_no_fault, law_one_schedule};
pub use level::Level;
pub use line_bytes::LineBytes;
pub use lines::{MAX_MOMENT, MAX_ORDINAL, four_words, one_word, read_line, three_words, two_words};
pub use modes::hex_byte;
pub use place::{MAX_BYTES, MAX_LINE_BYTES, MAX_LINES};
pub use reading::read_schedule;
pub use schedule::{Line, Lines, Schedule};
pub use setting_text::SettingText;
pub use words::number_at;
pub use writing::{write_bad_schedule, write_echo, write_line, write_schedule};
