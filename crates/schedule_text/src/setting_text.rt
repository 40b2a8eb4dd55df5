//! The text that a `value` line gives its setting.
ghost use Rattle.std.specs.Prelude.{◌≡◌, IsTrue, Some, None, if◌then◌else◌};
ghost use Rattle.voting_config.specs.Ids.{is_id};

use std::marker::Model;
use voting_config::NodeId;

/// The text that a `value` line gives its setting: 1 to 32 bytes of `a-z`, `0-9` and `-`, the form of a node's id.
/// Contracts see its bytes.
#[derive(Clone, Copy)]
pub struct SettingText {
    text: NodeId,
}

impl Model for SettingText {
    ghost use Rattle.std.specs.Prelude.{ℕ, List};
    ghost use Rattle.std.specs.Coded.{coded_list, coded_ℕ};

    ghost Value = { List ℕ };

    ghost coded = { coded_list coded_ℕ };

    ghost view = { λ t. t.text };

    ghost inverse = { λ bytes. record { text = bytes } };
}

impl SettingText {
    /// The text with these bytes, and None where they are not of its form.
    pub fn from_bytes(bytes: &[u8]) -> Option<SettingText>
        ensures { result ≡ (if is_id bytes.now then Some bytes.now else None) }
    {
        match NodeId::from_bytes(bytes) {
            Some(text) => Some(SettingText { text }),
            None => None,
        }
    }

    /// The bytes of the text.
    pub fn as_bytes(&self) -> &[u8]
        ensures value { result.now ≡ self.now }
        ensures form { IsTrue (is_id self.now) }
    {
        self.text.as_bytes()
    }

    /// The text.
    pub fn as_str(&self) -> &str
        ensures { result.now ≡ self.now }
    {
        self.text.as_str()
    }
}
