//! `BoxedFrame`: a frame in a place of its own.
ghost use Rattle.std.specs.Prelude.{◌≡◌, IfOk};

use crate::frame::Frame;
use std::alloc::{AllocError, Global};
use std::marker::Model;

/// A frame in a place of its own, so that the event with which it is handed on stays small. Contracts see the frame.
#[derive(Drop)]
pub struct BoxedFrame {
    frame: Box<Frame>,
}

impl Model for BoxedFrame {
    ghost use Rattle.wire_frames.specs.declared.frame.Frame.{Frame};

    ghost Value = { Frame };

    ghost view = { λ b. b.frame.value };
}

impl BoxedFrame {
    /// This frame, in a place of its own. The error means that memory ran out.
    pub fn of(alloc: Global, frame: Frame) -> Result<BoxedFrame, AllocError>
        ensures { IfOk result (λ boxed. boxed ≡ frame) }
    {
        match Box::new(alloc, frame) {
            Ok(frame) => Ok(BoxedFrame { frame }),
            Err(_) => Err(AllocError),
        }
    }

    /// The frame.
    pub fn frame(&self) -> &Frame
        ensures { result.now ≡ self.now }
    {
        &self.frame
    }
}
