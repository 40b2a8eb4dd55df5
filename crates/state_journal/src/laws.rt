//! What holds of every journal. The call does nothing: what it promises is proved.
ghost use Rattle.state_journal.specs.Laws.{LawDigests};

/// No body of version 2 is read whose digest is not that of its tag and fields: where its bytes are others than those that
/// were written, so is its digest, or two texts have one SHA-256.
pub fn law_digests()
    ensures { LawDigests }
{}
