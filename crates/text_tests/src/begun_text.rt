//! A text that holds something already, by which a test sees that a writer leaves it there and writes behind it.
use std::alloc::{AllocError, Global};
use text::Text;

/// A text that holds something already.
pub(crate) fn begun(alloc: Global) -> Result<Text, AllocError> {
    let mut text = Text::new(alloc);
    text.word("-")?;
    Ok(text)
}

/// Whether just this was written behind what a begun text held.
pub(crate) fn goes_on(alloc: Global, text: &Text, wanted: &str) -> Result<bool, AllocError> {
    let mut whole = begun(alloc)?;
    whole.word(wanted)?;
    Ok(text.as_bytes() == whole.as_bytes())
}
