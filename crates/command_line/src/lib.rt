//! The words of the command line: which command they are, or that they are none.
#![tactic(auto)]

mod command;
mod lists;
mod reading;
mod shape;
mod values;

pub use command::{
    HistoryLevel, LinkWords, MAX_PORT, MAX_STEPS, NodeWords, ProgramCommand, TrialWords, WordsError,
};
pub use reading::read_words;
pub use shape::program;
