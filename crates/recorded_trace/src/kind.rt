//! The seven kinds of acts.
ghost use Rattle.std.specs.Prelude.{◌≡◌};
ghost use Rattle.recorded_trace.specs.Acts.{kind_at as kind_at_of};

use schedule_text::WhyBad;

/// What an act does, by the word of its line.
#[derive(Clone, Copy, Debug, PartialEq, Eq)]
pub enum Kind {
    Boot,
    StartJoin,
    Join,
    Value,
    Publish,
    Response,
    Commit,
}

/// The kind of act that a word says.
pub fn kind_at(word: &[u8]) -> Result<Kind, WhyBad>
    ensures { result ≡ kind_at_of word.now }
{
    if word == b"boot".as_slice() {
        return Ok(Kind::Boot);
    }
    if word == b"startjoin".as_slice() {
        return Ok(Kind::StartJoin);
    }
    if word == b"join".as_slice() {
        return Ok(Kind::Join);
    }
    if word == b"value".as_slice() {
        return Ok(Kind::Value);
    }
    if word == b"publish".as_slice() {
        return Ok(Kind::Publish);
    }
    if word == b"response".as_slice() {
        return Ok(Kind::Response);
    }
    if word == b"commit".as_slice() {
        return Ok(Kind::Commit);
    }
    Err(WhyBad::Verb)
}
