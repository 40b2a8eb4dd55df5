//! Frames: the messages between nodes, as types and as bytes.
#![tactic(auto)]

mod boxed;
mod buffer;
mod fault;
mod frame;
mod laws;
mod lent;
mod reader;
mod reading;
mod view;
mod writing;

pub use boxed::BoxedFrame;
pub use fault::FrameError;
pub use frame::{Frame, Kind, MAX_BODY, WireMessage};
pub use laws::{law_cut, law_first_frame, law_one_frame, law_stream};
pub use lent::FrameView;
pub use reader::FrameReader;
pub use view::MessageView;
pub use writing::write_frame;
