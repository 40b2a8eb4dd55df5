//! What a stop leaves, as a word.
ghost use Rattle.std.specs.Prelude.{◌≡◌, ◌<◌, IfOk};
ghost use Rattle.schedule_text.specs.Words.{mode, torn_at as torn_at_of, byte_at as byte_at_of, hex_at as hex_at_of, hex_byte as hex_byte_of};

use crate::fault::WhyBad;
use zen_disk::Way;

/// What a stop leaves, as a word says it, and else `Mode`.
pub fn mode_at(word: &[u8]) -> Result<Way, WhyBad>
    ensures { result ≡ mode.at word.now }
{
    if word == b"none".as_slice() {
        return Ok(Way::Lost);
    }
    if word == b"all".as_slice() {
        return Ok(Way::Kept);
    }
    torn_at(word)
}

fn torn_at(word: &[u8]) -> Result<Way, WhyBad>
    ensures { result ≡ torn_at_of word.now }
{
    if word.len() != 7 {
        return Err(WhyBad::Mode);
    }
    if &word[..5] != b"torn:".as_slice() {
        return Err(WhyBad::Mode);
    }
    byte_at(word[5], word[6])
}

fn byte_at(high: u8, low: u8) -> Result<Way, WhyBad>
    ensures { result ≡ byte_at_of high low }
{
    let high = hex_at(high)?;
    let low = hex_at(low)?;
    Ok(Way::Torn(high * 16 + low))
}

// The number that a digit of hexadecimal says, and else `Mode`.
fn hex_at(b: u8) -> Result<u8, WhyBad>
    ensures value { result ≡ hex_at_of b }
    ensures below { IfOk result (λ n. n < 16) }
{
    match b {
        b'0'..=b'9' => Ok(b - b'0'),
        b'a'..=b'f' => Ok(b - b'a' + 10),
        _ => Err(WhyBad::Mode),
    }
}

/// The digit of hexadecimal that says a number.
pub fn hex_byte(number: u8) -> u8
    requires { number < 16 }
    ensures { result ≡ hex_byte_of number }
{
    if number < 10 {
        return b'0' + number;
    }
    b'a' + (number - 10)
}
