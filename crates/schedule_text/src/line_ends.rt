//! Where a line of a text ends.
ghost use Rattle.std.specs.Prelude.{◌≡◌, ◌+◌, ◌≤◌, ◌∷◌, length};
ghost use Rattle.voting_config.specs.Lists.{left_in, line_feed, parts_in, parts_of};

use memchr::memchr;

/// What stands before the first line feed, and what stands after it.
pub fn cut_line(bytes: &[u8]) -> (&[u8], Option<&[u8]>)
    ensures parts { parts_of line_feed bytes.now ≡ result.0.now ∷ parts_in line_feed result.1 }
    ensures shorter { left_in result.1 ≤ length bytes.now }
    ensures sizes { length bytes.now ≡ length result.0.now + left_in result.1 }
{
    match memchr(b'\n', bytes) {
        None => (bytes, None),
        Some(place) => (&bytes[..place], Some(&bytes[place + 1..])),
    }
}
