//! Fields read from the start of bytes: each gives the value, or the first fault.

ghost use Rattle.std.specs.Prelude.{◌≡◌, ◌≤◌, ◌==◌, [], length, if◌then◌else◌, true};
ghost use Rattle.std.specs.Option.{option_copied};
ghost use Rattle.std.specs.Str.{is_utf8};
ghost use Rattle.cluster_state.specs.Faults.{Reads, ReadsInMemory};
ghost use Rattle.cluster_state.specs.Field.{number, byte, short, flag, optional, elements_at};
ghost use Rattle.cluster_state.specs.Fields.{term, version, id, ids, text, setting, settings};
ghost use Rattle.cluster_state.specs.Settings.{comes_after_keys};
ghost use Rattle.voting_config.specs.Ids.{comes_after, most_ids};

use crate::fault::{FieldError, ReadError};
use crate::settings::Settings;
use std::alloc::Global;
use std::marker::Model;
use voting_config::{IdList, MAX_IDS, NodeId, NodeSet, VotingConfig};

/// How many exclusions from voting a state has at most.
pub const MAX_EXCLUSIONS: u8 = 10;

/// How many settings a state has at most.
pub const MAX_SETTINGS: u16 = 4096;

/// Bytes that are read field by field, seen as those that are left.
#[derive(Drop)]
pub struct Reader<'a> {
    pub(crate) rest: &'a [u8],
}

impl<'a> Model for Reader<'a> {
    ghost use Rattle.std.specs.Prelude.{ℕ, List};

    ghost Value = { List ℕ };

    ghost view = { λ r. r.rest.now };
}

impl<'a> Reader<'a> {
    /// A reader of these bytes, from their start.
    pub fn new(bytes: &'a [u8]) -> Reader<'a>
        ensures { result ≡ bytes.now }
    {
        Reader { rest: bytes }
    }

    /// Whether nothing is left.
    pub fn is_at_end(&self) -> bool
        ensures { result ≡ (length self.now == 0) }
    {
        self.rest.is_empty()
    }

    fn number(&mut self, too_large: FieldError) -> Result<u64, FieldError>
        ensures { Reads (λ x. x) result self.new ((number too_large).at self.old) }
    {
        let bytes = self.rest;
        if bytes.len() < 8 {
            return Err(FieldError::Short);
        }
        let (prefix, rest) = bytes.split_at(8);
        let number = u64::from_be_bytes([
            prefix[0], prefix[1], prefix[2], prefix[3], prefix[4], prefix[5], prefix[6], prefix[7],
        ]);
        if number > 1 << 62 {
            return Err(too_large);
        }
        self.rest = rest;
        Ok(number)
    }

    /// A term: 8 bytes, big-endian. `Short`, then `TermTooLarge` over 2^62.
    pub fn term(&mut self) -> Result<u64, FieldError>
        ensures { Reads (λ x. x) result self.new (term.at self.old) }
    {
        self.number(FieldError::TermTooLarge)
    }

    /// A version: 8 bytes, big-endian. `Short`, then `VersionTooLarge` over 2^62.
    pub fn version(&mut self) -> Result<u64, FieldError>
        ensures { Reads (λ x. x) result self.new (version.at self.old) }
    {
        self.number(FieldError::VersionTooLarge)
    }

    /// One byte. `Short` where there is none.
    pub fn byte(&mut self) -> Result<u8, FieldError>
        ensures { Reads (λ x. x) result self.new (byte.at self.old) }
    {
        match self.rest {
            [] => Err(FieldError::Short),
            [byte, rest @ ..] => {
                self.rest = rest;
                Ok(*byte)
            }
        }
    }

    pub(crate) fn short(&mut self) -> Result<u16, FieldError>
        ensures { Reads (λ x. x) result self.new (short.at self.old) }
    {
        let bytes = self.rest;
        if bytes.len() < 2 {
            return Err(FieldError::Short);
        }
        let (prefix, rest) = bytes.split_at(2);
        self.rest = rest;
        Ok(u16::from_be_bytes([prefix[0], prefix[1]]))
    }

    /// A flag: one byte. `Short`, then `BadFlag` where it is neither 0 nor 1.
    pub fn flag(&mut self) -> Result<bool, FieldError>
        ensures { Reads (λ x. x) result self.new (flag.at self.old) }
    {
        match self.rest {
            [] => Err(FieldError::Short),
            [0, rest @ ..] => {
                self.rest = rest;
                Ok(false)
            }
            [1, rest @ ..] => {
                self.rest = rest;
                Ok(true)
            }
            [_, ..] => Err(FieldError::BadFlag),
        }
    }

    /// An id: one byte of length, and so many bytes. `Short`, then `BadId` on the length, `Short`, `BadId` on a byte.
    pub fn id(&mut self) -> Result<NodeId, FieldError>
        ensures { Reads (λ x. x) result self.new (id.at self.old) }
    {
        let len = usize::from(self.byte()?);
        if len < 1 {
            return Err(FieldError::BadId);
        }
        if len > 32 {
            return Err(FieldError::BadId);
        }
        let bytes = self.rest;
        if bytes.len() < len {
            return Err(FieldError::Short);
        }
        let (prefix, rest) = bytes.split_at(len);
        self.rest = rest;
        NodeId::from_bytes(prefix).ok_or(FieldError::BadId)
    }

    /// A flag, and after a 1 an id.
    pub fn optional_id(&mut self) -> Result<Option<NodeId>, FieldError>
        ensures { Reads (λ x. x) result self.new ((optional id).at self.old) }
    {
        if self.flag()? {
            let id = self.id()?;
            Ok(Some(id))
        } else {
            Ok(None)
        }
    }

    // So many ids.
    fn elements(&mut self, count: u8) -> Result<NodeSet, FieldError>
        requires { count ≤ most_ids }
        ensures { Reads (λ x. x) result self.new (elements_at comes_after id.at count [] self.old) }
    {
        let mut ids = NodeSet::new();
        for _ in 0..count {
            let id = self.id()?;
            if !ids.comes_last(id) {
                return Err(FieldError::NotOrdered);
            }
            ids.push(id);
        }
        Ok(ids)
    }

    /// A set of at most `limit` ids: one byte of count, then ids, ascending. `Short`, then `TooMany` on the count; after each id
    /// `NotOrdered` where it is not above the one before.
    pub fn ids(&mut self, limit: u8) -> Result<NodeSet, FieldError>
        requires { limit ≤ most_ids }
        ensures { Reads (λ x. x) result self.new ((ids limit).at self.old) }
    {
        let count = self.byte()?;
        if count > limit {
            return Err(FieldError::TooMany);
        }
        self.elements(count)
    }

    /// The same, in memory of its own.
    pub fn id_list(&mut self, alloc: Global, limit: u8) -> Result<IdList, ReadError>
        requires { limit ≤ most_ids }
        ensures { ReadsInMemory result self.new ((ids limit).at self.old) }
    {
        let ids = self.ids(limit)?;
        let list = IdList::of(alloc, &ids)?;
        Ok(list)
    }

    /// A voting configuration.
    pub fn config(&mut self) -> Result<VotingConfig, FieldError>
        ensures { Reads (λ x. x) result self.new ((ids most_ids).at self.old) }
    {
        let members = self.ids(MAX_IDS as u8)?;
        Ok(VotingConfig::of(&members))
    }

    /// A text of `low` to `high` bytes: 2 bytes of length, then UTF-8. `Short`, then `BadText` on the length, `Short`, `BadText`
    /// where the bytes are not UTF-8.
    pub fn text(&mut self, low: u16, high: u16) -> Result<&'a str, FieldError>
        ensures { Reads (λ x. x.now) result self.new ((text low high).at self.old) }
    {
        let len = self.short()?;
        if len < low {
            return Err(FieldError::BadText);
        }
        if len > high {
            return Err(FieldError::BadText);
        }
        let len = usize::from(len);
        let bytes = self.rest;
        if bytes.len() < len {
            return Err(FieldError::Short);
        }
        let (prefix, rest) = bytes.split_at(len);
        self.rest = rest;
        match text_of(prefix) {
            Some(text) => Ok(text),
            None => Err(FieldError::BadText),
        }
    }

    pub(crate) fn setting(&mut self) -> Result<(&'a str, &'a str), FieldError>
        ensures { Reads (λ x. (x.0.now, x.1.now)) result self.new (setting.at self.old) }
    {
        let key = self.text(1, 128)?;
        let value = self.text(0, 1024)?;
        Ok((key, value))
    }

    // So many settings.
    fn entries(&mut self, alloc: Global, count: u16) -> Result<Settings, ReadError>
        ensures { ReadsInMemory result self.new (elements_at comes_after_keys setting.at count [] self.old) }
    {
        let mut settings = Settings::new(alloc);
        for _ in 0..count {
            let (key, value) = self.setting()?;
            if !settings.comes_last(key) {
                return Err(ReadError::Field(FieldError::NotOrdered));
            }
            settings.push(key, value)?;
        }
        Ok(settings)
    }

    /// Settings: 2 bytes of count, then keys and values, the keys ascending. `Short`, then `TooMany` on the count; after each
    /// setting `NotOrdered` where its key is not above the one before.
    pub fn settings(&mut self, alloc: Global) -> Result<Settings, ReadError>
        ensures { ReadsInMemory result self.new (settings.at self.old) }
    {
        let count = self.short()?;
        if count > MAX_SETTINGS {
            return Err(ReadError::Field(FieldError::TooMany));
        }
        self.entries(alloc, count)
    }
}

// The bytes as a text, where they are UTF-8.
fn text_of(bytes: &[u8]) -> Option<&str>
    ensures { option_copied result ≡ (if is_utf8 bytes.now then Some bytes.now else None) }
{
    match str::from_utf8(bytes) {
        Ok(text) => Some(text),
        Err(_) => None,
    }
}
