//! `NodeId`: the name of a node.
ghost use Rattle.std.specs.Prelude.{◌≡◌, ℕ, ◌+◌, ◌<◌, ◌≤◌, IsTrue, take, length, position, not, codes, if◌then◌else◌};
ghost use Rattle.std.specs.List.{list_all};
ghost use Rattle.voting_config.specs.Ids.{is_id as is_id_of, is_id_byte as byte_of_id};
ghost use Rattle.voting_config.specs.Parse.{parsed};

use std::cmp::Ordering;
use std::fmt;
use std::hash::{Hash, Hasher};
use std::marker::Model;
use std::simd::u8x32;

/// Why a text is no id, in the order in which it is tested.
#[derive(Clone, Copy, Debug, PartialEq, Eq, thiserror::Error)]
pub enum IdError {
    #[error("an id is not empty")]
    Empty,
    #[error("an id has at most 32 bytes")]
    TooLong,
    /// The place of the first byte that no id has, counted from 0.
    #[error("the byte at {0} stands in no id")]
    BadByte(usize),
}

/// The name of a node: 1 to 32 bytes of `a-z`, `0-9` and `-`, ordered by its bytes. Contracts see its bytes.
#[derive(Clone, Copy)]
pub struct NodeId {
    // Behind an id of fewer than 32 bytes stand zeros, and in the last place how many bytes it has, which is less than any byte of an id.
    // So its length takes no place of its own, of which a set would have 64.
    bytes: [u8; 32],
}

impl Model for NodeId {
    ghost use Rattle.std.specs.Prelude.{take};
    ghost use Rattle.voting_config.specs.Ids.{Id};
    ghost use Rattle.voting_config.specs.Padded.{IsPadded, padded, held_length};
    ghost use Rattle.std.specs.Coded.{coded_list, coded_ℕ};

    ghost Value = { Id };

    ghost coded = { coded_list coded_ℕ };

    ghost view = { λ a. take (held_length a.bytes) a.bytes };

    ghost invariant = { λ a. IsPadded a.bytes };

    ghost inverse = { λ id. record { bytes = padded id } };

    ghost inverse_ok = { λ a h i. record { bytes = h.back i } };
}

impl NodeId {
    /// The id with this text. `Empty` where there is no byte, `TooLong` where there are over 32, and else
    /// `BadByte` for the first byte that no id has.
    pub fn parse(text: &str) -> Result<NodeId, IdError>
        ensures { result ≡ parsed text.now }
    {
        let text = text.as_bytes();
        if text.is_empty() {
            return Err(IdError::Empty);
        }
        if text.len() > 32 {
            return Err(IdError::TooLong);
        }
        match first_bad(text) {
            Some(at) => Err(IdError::BadByte(at)),
            None => Ok(held(text)),
        }
    }

    /// The id with these bytes, and None where they are no id.
    pub fn from_bytes(bytes: &[u8]) -> Option<NodeId>
        ensures { result ≡ (if is_id_of bytes.now then Some bytes.now else None) }
    {
        if is_id(bytes) {
            Some(held(bytes))
        } else {
            None
        }
    }

    /// The bytes of the id.
    #[inline(always)]
    pub fn as_bytes(&self) -> &[u8]
        ensures value { result.now ≡ self.now }
        ensures id { IsTrue (is_id_of self.now) }
    {
        &self.bytes[..self.len()]
    }

    // How many bytes the id has.
    #[inline(always)]
    fn len(&self) -> usize
        ensures { result ≡ length self.now }
    {
        self.bytes[31].min(32) as usize
    }

    /// The text of the id.
    pub fn as_str(&self) -> &str
        ensures { result.now ≡ self.now }
    {
        match str::from_utf8(self.as_bytes()) {
            Ok(text) => text,
            Err(_) => unreachable!(),
        }
    }
}

impl fmt::Display for NodeId {
    ghost use Rattle.std.specs.Prelude.{Some};

    ghost output = { λ id. Some id };

    fn fmt<W: fmt::Write>(&self, f: &mut fmt::Formatter<W>) -> fmt::Result {
        f.write_str(self.as_str())
    }
}

impl fmt::Debug for NodeId {
    ghost use Rattle.std.specs.Prelude.{Some};

    ghost debug_output = { λ id. Some id };

    fn fmt<W: fmt::Write>(&self, f: &mut fmt::Formatter<W>) -> fmt::Result {
        f.write_str(self.as_str())
    }
}

/// `-`, 32 times, which fills the unused seats of a set: all bytes are the same, so that a set is filled as fast as memory can be.
impl Default for NodeId {
    ghost use Rattle.std.specs.Prelude.{replicate};

    ghost is_default = { λ id. id ≡ replicate 32 45 };

    fn default() -> NodeId {
        NodeId { bytes: [b'-'; 32] }
    }
}

// The id that these bytes are.
fn held(text: &[u8]) -> NodeId
    requires { IsTrue (is_id_of text.now) }
    ensures { result ≡ text.now }
{
    let mut bytes = [0; 32];
    bytes[31] = text.len() as u8;
    bytes[..text.len()].copy_from_slice(text);
    NodeId { bytes }
}

// The first place of a byte that no id has.
fn first_bad(text: &[u8]) -> Option<usize>
    ensures { result ≡ position (λ b. not (byte_of_id b)) text.now }
{
    text.iter().position(|b| !is_id_byte(*b))
}

// Whether the bytes are those of an id.
fn is_id(bytes: &[u8]) -> bool
    ensures { result ≡ is_id_of bytes.now }
{
    if bytes.is_empty() {
        return false;
    }
    if bytes.len() > 32 {
        return false;
    }
    are_id_bytes(bytes)
}

fn are_id_bytes(bytes: &[u8]) -> bool
    ensures { result ≡ list_all byte_of_id bytes.now }
{
    bytes.iter().all(|b| is_id_byte(*b))
}

fn is_id_byte(b: u8) -> bool
    ensures { result ≡ byte_of_id b }
{
    matches!(b, b'a'..=b'z' | b'0'..=b'9' | b'-')
}

impl Hash for NodeId {
    ghost use Rattle.std.specs.Hash as fed;
    ghost use Rattle.std.specs.Cmp.Rules.{hashing};
    ghost use Rattle.std.proofs.Common.{rules};

    ghost hash_input = { fed.slice fed.u8 };

    ghost respects_eq = { Prim.search (hashing, rules) };

    fn hash<H: Hasher>(&self, state: &mut H) {
        self.as_bytes().hash(state);
    }
}

impl PartialEq for NodeId {
    ghost use Rattle.std.specs.Str.{bytes_eq};
    ghost use Rattle.std.specs.Cmp.{partial_equiv_from_equiv};
    ghost use Rattle.std.specs.Cmp.Lexicographic.{nat_list_eq_equiv};

    ghost eq = { bytes_eq };

    ghost laws = { partial_equiv_from_equiv nat_list_eq_equiv };

    fn eq(&self, other: &NodeId) -> bool {
        // What stands behind the bytes of an id follows from them, so that two are the same where all that they hold is.
        u8x32::from_array(self.bytes) == u8x32::from_array(other.bytes)
    }
}

impl Eq for NodeId {
    ghost use Rattle.std.specs.Cmp.Lexicographic.{nat_list_eq_equiv};

    ghost laws = { nat_list_eq_equiv };
}

impl Ord for NodeId {
    ghost use Rattle.std.specs.Prelude.{refl};
    ghost use Rattle.std.specs.Ordering.{nat_cmp};
    ghost use Rattle.std.specs.Cmp.Lexicographic.{slice_cmp, nat_list_cmp_total, texts_ties};

    ghost cmp = { slice_cmp nat_cmp };

    ghost total = { nat_list_cmp_total };

    ghost matches_partial_cmp = { λ x y. refl };

    ghost matches_eq = { texts_ties };

    fn cmp(&self, other: &NodeId) -> Ordering {
        self.as_bytes().cmp(other.as_bytes())
    }
}

impl PartialOrd for NodeId {
    ghost use Rattle.std.specs.Prelude.{Some};
    ghost use Rattle.std.specs.Ordering.{nat_cmp};
    ghost use Rattle.std.specs.Cmp.Lexicographic.{slice_cmp, texts_po};

    ghost partial_cmp = { λ x y. Some (slice_cmp nat_cmp x y) };

    ghost laws = { texts_po };

    fn partial_cmp(&self, other: &NodeId) -> Option<Ordering> {
        Some(self.cmp(other))
    }
}
