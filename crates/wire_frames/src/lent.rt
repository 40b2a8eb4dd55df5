//! A frame that lies in its bytes, lent out of where they lie.
ghost use Rattle.std.specs.Prelude.{IsOk};
ghost use Rattle.wire_frames.specs.Frames.{frame_of};

/// The body of a frame, checked to be one, and nothing made of it yet. Contracts see what it shows, which is a frame.
// It has no `Model`, since a call that lends such a value has no proof.
#[derive(Clone, Copy)]
pub struct FrameView<'a> {
    pub(crate) body: &'a [u8],
    ghost checked: { IsOk (frame_of body.now) },
}
