//! A journal of bodies in two files, each body after a gate byte that is opened by a write of its own.
//!
//! A file begins with `ZENJRNL1` and a gate. A gate of value 1 is open, any other is closed. After an open gate
//! stand the body's length in 4 bytes, the body, and the next gate. The bodies of a file are those up to the first closed gate.
//!
//! One file is in use, and bodies are added there. A body that begins with a 4 or a 132 and an epoch of 8 bytes begins a generation:
//! it stands for all that was before it, and is written as the only body of the other file, which is then in use. The
//! file in use is that of the greater epoch. Where no body begins a generation file zero has epoch 0, and file one has none.
#![tactic(auto)]

mod add;
mod device;
mod error;
mod frame;
mod log;
mod open;
mod order;
mod refusal;
mod renew;
mod scan;
mod why;

pub use error::{AppendError, LogError};
pub use log::{GateLog, Opened};
pub use order::LAST_EPOCH;
pub use why::{Fault, Why, mark_of};
