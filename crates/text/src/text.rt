//! A text that grows at its end.
ghost use Rattle.std.specs.Prelude.{◌≡◌, ◌++◌, ◌∷◌, [], length, OnOk, decimal};
ghost use Rattle.voting_config.specs.Lists.{list_text};

use crate::numbers::{put_number, put_number_and};
use std::alloc::{AllocError, Global};
use std::marker::Model;
use voting_config::NodeId;

/// A text that grows at its end. Contracts see its bytes.
///
/// Where a call answers an error, memory has run out, and any part of what it was to write may stand at the end.
#[derive(Drop)]
pub struct Text {
    bytes: Vec<u8>,
}

impl Model for Text {
    ghost use Rattle.std.specs.Prelude.{ℕ, List};

    ghost Value = { List ℕ };

    ghost view = { λ t. t.bytes.items };
}

impl Text {
    /// The empty text, which takes no memory yet.
    pub fn new(alloc: Global) -> Text
        ensures { result ≡ [] }
    {
        Text {
            bytes: Vec::new(alloc),
        }
    }

    /// The bytes of the text.
    #[inline(always)]
    pub fn as_bytes(&self) -> &[u8]
        ensures { result.now ≡ self.now }
    {
        self.bytes.as_slice()
    }

    /// How many bytes the text has.
    #[inline(always)]
    pub fn len(&self) -> usize
        ensures { result ≡ length self.now }
    {
        self.bytes.len()
    }

    /// Makes the text empty. Its memory stays, for what is written next.
    #[inline(always)]
    pub fn clear(&mut self)
        ensures { self.new ≡ [] }
    {
        self.bytes.clear();
    }

    /// Writes a text.
    #[inline(always)]
    pub fn word(&mut self, word: &str) -> Result<(), AllocError>
        ensures { OnOk result (self.new ≡ self.old ++ word.now) }
    {
        self.bytes(word.as_bytes())
    }

    /// Writes bytes.
    #[inline(always)]
    pub fn bytes(&mut self, bytes: &[u8]) -> Result<(), AllocError>
        ensures { OnOk result (self.new ≡ self.old ++ bytes.now) }
    {
        self.bytes.extend_from_slice(bytes)?;
        Ok(())
    }

    /// Writes one byte.
    #[inline(always)]
    pub fn byte(&mut self, byte: u8) -> Result<(), AllocError>
        ensures { OnOk result (self.new ≡ self.old ++ byte ∷ []) }
    {
        self.bytes.push(byte)?;
        Ok(())
    }

    /// Writes an id.
    #[inline(always)]
    pub fn id(&mut self, id: NodeId) -> Result<(), AllocError>
        ensures { OnOk result (self.new ≡ self.old ++ id) }
    {
        self.lent_id(&id)
    }

    /// Writes an id that stands elsewhere, without a copy of it.
    #[inline(always)]
    pub fn lent_id(&mut self, id: &NodeId) -> Result<(), AllocError>
        ensures { OnOk result (self.new ≡ self.old ++ id.now) }
    {
        // Ids of one letter are common, and one byte needs no call that copies it.
        let bytes = id.as_bytes();
        if let [byte] = bytes {
            return self.byte(*byte);
        }
        self.long_id(bytes)
    }

    /// Writes an id and the byte after it.
    #[inline(always)]
    pub fn id_and(&mut self, id: &NodeId, after: u8) -> Result<(), AllocError>
        ensures { OnOk result (self.new ≡ self.old ++ (id.now ++ after ∷ [])) }
    {
        let bytes = id.as_bytes();
        if let [byte] = bytes {
            return self.bytes(&[*byte, after]);
        }
        self.long_id(bytes)?;
        self.byte(after)
    }

    fn long_id(&mut self, bytes: &[u8]) -> Result<(), AllocError>
        ensures { OnOk result (self.new ≡ self.old ++ bytes.now) }
    {
        self.bytes(bytes)
    }

    /// Writes a number in decimal, without leading zeros.
    #[tactic(auto, using(std::proofs::lemmas::Fmt::decimal_digit))]
    #[inline(always)]
    pub fn number(&mut self, number: u64) -> Result<(), AllocError>
        ensures { OnOk result (self.new ≡ self.old ++ decimal number) }
    {
        // Most numbers of a trace are small, and one digit needs no buffer.
        if number < 10 {
            return self.byte(b'0' + number as u8);
        }
        put_number(&mut self.bytes, number)
    }

    /// Writes a number in decimal, without leading zeros, and the byte after it.
    #[tactic(auto, using(std::proofs::lemmas::Fmt::decimal_digit))]
    #[inline(always)]
    pub fn number_and(&mut self, number: u64, after: u8) -> Result<(), AllocError>
        ensures { OnOk result (self.new ≡ self.old ++ (decimal number ++ after ∷ [])) }
    {
        if number < 10 {
            return self.bytes(&[b'0' + number as u8, after]);
        }
        put_number_and(&mut self.bytes, number, after)
    }

    /// Writes ids with a comma between each two, or `_` where there is none.
    pub fn ids(&mut self, ids: &[NodeId]) -> Result<(), AllocError>
        ensures { OnOk result (self.new ≡ self.old ++ list_text ids.now) }
    {
        let [first, others @ ..] = ids else {
            return self.word("_");
        };
        self.lent_id(first)?;
        for id in others {
            self.word(",")?;
            self.lent_id(id)?;
        }
        Ok(())
    }
}
