//! What the definitions of frames and of streams say.

ghost use Rattle.std.specs.Prelude.{◌≡◌, ◌<◌, ◌^◌, ◌↔◌, ◌∷◌, ◌++◌, List, [], All, ℕ};
ghost use Rattle.wire_frames.specs.declared.frame.Frame.{Frame};
ghost use Rattle.wire_frames.specs.Frames.{SpellsFrame};
ghost use Rattle.wire_frames.specs.Streams.{Ending, prepend, stream, stream_after, IsStream};
ghost use Rattle.wire_frames.specs.Splits.{Splits};

/// Bytes spell one frame at most. (A frame has one spelling: `SpellsFrame` says which bytes it is.)
pub fn law_one_frame()
    ensures { (f g : Frame) (bytes : List ℕ) → SpellsFrame f bytes → SpellsFrame g bytes → f ≡ g }
{}

/// A frame that is spelled first is the first of the stream, whatever follows it.
pub fn law_first_frame()
    ensures { (f : Frame) (bytes more : List ℕ) → SpellsFrame f bytes → stream (bytes ++ more) ≡ prepend (f ∷ []) (stream more) }
{}

/// Bytes are the stream of these frames and this ending exactly where they are the frames, spelled one after the other,
/// and then less than a frame, or a fault.
pub fn law_stream()
    ensures { (bytes : List ℕ) (frames : List Frame) (ending : Ending) → All (λ b. b < 2 ^ 8) bytes
        → (IsStream bytes frames ending ↔ Splits bytes frames ending) }
{}

/// Cut in two, a stream is the frames of its first part, and then the stream of what stands after them and its second
/// part.
pub fn law_cut()
    ensures { (bytes more : List ℕ) → stream (bytes ++ more) ≡ prepend (stream bytes).frames (stream_after (stream bytes).ending more) }
{}
