//! A state checked in its bytes: nothing is made of them, and no memory is taken.
ghost use Rattle.std.specs.Prelude.{◌≡◌, ◌≤◌, [], IsTrue};
ghost use Rattle.std.specs.Option.{option_copied};
ghost use Rattle.voting_config.specs.Ids.{comes_after, most_ids};
ghost use Rattle.cluster_state.specs.Field.{elements_at};
ghost use Rattle.cluster_state.specs.Fields.{id, ids, setting, settings};
ghost use Rattle.cluster_state.specs.Settings.{comes_after_keys};
ghost use Rattle.cluster_state.specs.States.{value, state, whole};
ghost use Rattle.cluster_state.specs.Passing.{Passes, PassesState, id_found, is_after_last};

use crate::fault::{FieldError, StateFault};
use crate::fields::{MAX_EXCLUSIONS, MAX_SETTINGS, Reader};
use crate::state::StateId;
use voting_config::{MAX_IDS, NodeId};

// Whether the id comes after the last one, where there is one.
fn is_after_id(last: Option<NodeId>, next: NodeId) -> bool
    ensures { result ≡ is_after_last last next }
{
    match last {
        None => true,
        Some(last) => last < next,
    }
}

fn is_after_key(last: Option<&str>, next: &str) -> bool
    ensures { result ≡ is_after_last (option_copied last.entry) next.now }
{
    match last {
        None => true,
        Some(last) => last < next,
    }
}

impl<'a> Reader<'a> {
    /// What is left.
    pub fn rest(&self) -> &'a [u8]
        ensures { result.now ≡ self.now }
    {
        self.rest
    }

    // So many ids.
    fn pass_elements(&mut self, count: u8) -> Result<(), FieldError>
        ensures { Passes result self.new (elements_at comes_after id.at count [] self.old) }
    {
        let mut last = None;
        for _ in 0..count {
            let next = self.id()?;
            if !is_after_id(last, next) {
                return Err(FieldError::NotOrdered);
            }
            last = Some(next);
        }
        Ok(())
    }

    /// Passes over a set of at most `limit` ids, with the faults of [`ids`](Reader::ids).
    pub fn pass_ids(&mut self, limit: u8) -> Result<(), FieldError>
        ensures { Passes result self.new ((ids limit).at self.old) }
    {
        let count = self.byte()?;
        if count > limit {
            return Err(FieldError::TooMany);
        }
        self.pass_elements(count)
    }

    // So many settings.
    fn pass_entries(&mut self, count: u16) -> Result<(), FieldError>
        ensures { Passes result self.new (elements_at comes_after_keys setting.at count [] self.old) }
    {
        let mut last: Option<&'a str> = None;
        for _ in 0..count {
            let (key, _) = self.setting()?;
            if !is_after_key(last, key) {
                return Err(FieldError::NotOrdered);
            }
            last = Some(key);
        }
        Ok(())
    }

    /// Passes over settings, with the faults of [`settings`](Reader::settings).
    pub fn pass_settings(&mut self) -> Result<(), FieldError>
        ensures { Passes result self.new (settings.at self.old) }
    {
        let count = self.short()?;
        if count > MAX_SETTINGS {
            return Err(FieldError::TooMany);
        }
        self.pass_entries(count)
    }

    /// Passes over a value.
    pub fn pass_value(&mut self) -> Result<(), FieldError>
        ensures { Passes result self.new (value.at self.old) }
    {
        self.optional_id()?;
        self.pass_ids(MAX_IDS as u8)?;
        self.pass_ids(MAX_EXCLUSIONS)?;
        self.pass_settings()
    }

    /// Passes over a state, and tells its id.
    pub fn pass_state(&mut self) -> Result<StateId, FieldError>
        ensures { PassesState result self.new (state.at self.old) }
    {
        let (id, _) = self.lineage()?;
        self.pass_ids(MAX_IDS as u8)?;
        self.pass_ids(MAX_IDS as u8)?;
        self.pass_value()?;
        Ok(id)
    }
}

/// The id of the state that the bytes spell, all of the bytes. Otherwise the first fault from left to right, or
/// `Trailing` where bytes are left after the last field, as [`decode_state`](crate::decode_state) has it. Takes no memory.
pub fn check_state(bytes: &[u8]) -> Result<StateId, StateFault>
    ensures { result ≡ id_found (whole (state.at bytes.now)) }
{
    let mut reader = Reader::new(bytes);
    let id = match reader.pass_state() {
        Ok(id) => id,
        Err(fault) => return Err(StateFault::Field(fault)),
    };
    if !reader.is_at_end() {
        return Err(StateFault::Trailing);
    }
    Ok(id)
}
