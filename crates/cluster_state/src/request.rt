//! What a client asks for. The types stand here, below the crates that read requests and those that answer them.
ghost use Rattle.std.specs.Prelude.{◌≡◌, IfOk};
ghost use Rattle.cluster_state.specs.Puts.{bad_setting_of};

use crate::text::Text;
use std::alloc::AllocError;
use voting_config::IdList;

/// What a client asks for.
#[derive(Drop)]
pub enum Ask {
    /// To set a key to a value.
    Put { key: Text, value: Text },
    /// To remove a key.
    Remove { key: Text },
    /// To exclude these nodes from voting.
    Exclude(IdList),
    /// To end all exclusions, which waits for the excluded nodes to be removed or not.
    Clear { wait_for_removal: bool },
    /// For the accepted state.
    State,
}

/// A request of a client, with the id that its replies carry.
#[derive(Drop)]
pub struct Request {
    pub id: u64,
    pub ask: Ask,
}

/// The most bytes of a key, which has at least one.
pub const MAX_KEY: usize = 128;

/// The most bytes of a value.
pub const MAX_VALUE: usize = 1024;

impl Ask {
    /// The same ask once more.
    pub fn copy(&self) -> Result<Ask, AllocError>
        ensures { IfOk result (λ ask. ask ≡ self.now) }
    {
        Ok(match self {
            Ask::Put { key, value } => Ask::Put {
                key: key.copy()?,
                value: value.copy()?,
            },
            Ask::Remove { key } => Ask::Remove { key: key.copy()? },
            Ask::Exclude(ids) => Ask::Exclude(ids.copy()?),
            Ask::Clear { wait_for_removal } => Ask::Clear {
                wait_for_removal: *wait_for_removal,
            },
            Ask::State => Ask::State,
        })
    }

    /// Of a put whose key is empty or has more than [`MAX_KEY`] bytes, the number of the key's bytes; else of one
    /// whose value has more than [`MAX_VALUE`] bytes, the number of the value's. `None` for all else.
    pub fn bad_setting(&self) -> Option<usize>
        ensures { result ≡ bad_setting_of self.now }
    {
        let Ask::Put { key, value } = self else {
            return None;
        };
        let (key, value) = (key.as_str().len(), value.as_str().len());
        if key == 0 || key > MAX_KEY {
            return Some(key);
        }
        if value > MAX_VALUE {
            return Some(value);
        }
        None
    }
}

impl Request {
    /// The same request once more.
    pub fn copy(&self) -> Result<Request, AllocError>
        ensures { IfOk result (λ request. request ≡ self.now) }
    {
        Ok(Request {
            id: self.id,
            ask: self.ask.copy()?,
        })
    }
}
