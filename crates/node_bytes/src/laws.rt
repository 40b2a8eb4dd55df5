//! What holds of the definitions, for callers to use.
ghost use Rattle.std.specs.Prelude.{◌≡◌, ℕ, List, ◌++◌, take, Some};
ghost use Rattle.wire_frames.specs.declared.frame.Frame.{Frame};
ghost use Rattle.wire_frames.specs.Frames.{SpellsFrame};
ghost use Rattle.node_bytes.specs.Senders.{sender_of};

/// The first 38 bytes of a frame, whatever follows it, say who sends it.
pub fn law_prefix_names_sender()
    ensures { (frame : Frame) → (bytes more : List ℕ) → SpellsFrame frame bytes → sender_of (take 38 (bytes ++ more)) ≡ Some frame.from }
{}
