//! Texts with long lists of ids.
use std::alloc::{AllocError, Global};
use voting_config::NodeId;

fn numbered(number: u8) -> NodeId {
    NodeId::from_bytes(&[b'n', b'0' + number / 10 % 10, b'0' + number % 10]).unwrap_or_default()
}

/// The ids from n01 up to the one of this number, which is below 100, with a text between them, behind another and before a last one.
pub(crate) fn with_ids(
    alloc: Global,
    head: &str,
    last: u8,
    between: &str,
    tail: &str,
) -> Result<String, AllocError> {
    let mut text = String::from_str(alloc, head)?;
    text.push_str("n01")?;
    for number in 2..=last {
        text.push_str(between)?;
        text.push_str(numbered(number).as_str())?;
    }
    text.push_str(tail)?;
    Ok(text)
}
