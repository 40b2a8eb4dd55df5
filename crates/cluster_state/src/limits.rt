//! Whether numbers, ids and states are within the limits, so that they have a spelling.
ghost use Rattle.std.specs.Prelude.{◌≤◌, ◌↔◌, IsTrue, IfSome, map};
ghost use Rattle.std.specs.List.{AllByRecursion};
ghost use Rattle.cluster_state.specs.Field.{last_number};
ghost use Rattle.cluster_state.specs.Fields.{IsFitSetting, AreFitSettings};
ghost use Rattle.cluster_state.specs.Settings.{setting_of};
ghost use Rattle.cluster_state.specs.States.{IsFitId, IsFit, IsFitValue};

use crate::fields::{MAX_EXCLUSIONS, MAX_SETTINGS};
use crate::request::{MAX_KEY, MAX_VALUE};
use crate::settings::Settings;
use crate::state::{ClusterState, ClusterValue, LAST_NUMBER, StateId};
use std::collections::BTreeMap;

/// Whether a term or a version is 2^62 at most.
pub fn is_fit_number(number: u64) -> bool
    ensures { IsTrue result ↔ (number ≤ last_number) }
{
    number <= LAST_NUMBER
}

fn is_fit_setting(key: &str, value: &str) -> bool
    ensures { IsTrue result ↔ IsFitSetting (key.now, value.now) }
{
    !key.is_empty() && key.len() <= MAX_KEY && value.len() <= MAX_VALUE
}

fn are_fit_texts(texts: &BTreeMap<String, String>) -> bool
    ensures { IsTrue result ↔ AllByRecursion IsFitSetting (map setting_of texts.now.entries) }
{
    for (key, value) in texts {
        if !is_fit_setting(key, value) {
            return false;
        }
    }
    true
}

fn are_fit_settings(settings: &Settings) -> bool
    ensures { IsTrue result ↔ AreFitSettings settings.now }
{
    settings.len() <= MAX_SETTINGS as usize && are_fit_texts(settings.texts())
}

fn is_fit_value(value: &ClusterValue) -> bool
    ensures { IsTrue result ↔ IsFitValue value.now }
{
    value.exclusions.len() <= MAX_EXCLUSIONS as usize && are_fit_settings(&value.settings)
}

fn is_fit_parent(parent: Option<StateId>) -> bool
    ensures { IsTrue result ↔ IfSome parent IsFitId }
{
    match parent {
        None => true,
        Some(parent) => parent.is_fit(),
    }
}

impl StateId {
    /// Whether its numbers are within the limits.
    pub fn is_fit(self) -> bool
        ensures { IsTrue result ↔ IsFitId self }
    {
        is_fit_number(self.term) && is_fit_number(self.version)
    }
}

impl ClusterState {
    /// Whether it is within the limits, so that it has a spelling.
    pub fn is_fit(&self) -> bool
        ensures { IsTrue result ↔ IsFit self.now }
    {
        is_fit_number(self.term)
            && is_fit_number(self.version)
            && is_fit_parent(self.parent)
            && self.id().is_above_parent(self.parent)
            && is_fit_value(&self.value)
    }
}
