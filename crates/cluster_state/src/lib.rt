//! Cluster states, the messages about them, why an act refuses one, states as bytes and as JSON, and what clients ask
//! for and are answered.
#![tactic(auto)]

mod causes;
mod checking;
mod decoding;
mod encoding;
mod fault;
mod fields;
mod json;
mod limits;
mod messages;
mod reply;
mod request;
mod settings;
mod shared;
pub(crate) mod spelled;
mod state;
mod text;
mod uniqueness;
mod view;
mod writing;

pub use causes::{
    CommitCause, InitialCause, JoinCause, PublishCause, ResponseCause, StartCause, ValueCause,
};
pub use checking::check_state;
pub use decoding::decode_state;
pub use encoding::{encode_state, write_shared_state, write_state};
pub use fault::{DecodeError, FieldError, ReadError, StateFault};
pub use fields::{MAX_EXCLUSIONS, MAX_SETTINGS, Reader};
pub use json::{to_json, value_to_json};
pub use limits::is_fit_number;
pub use messages::{ApplyCommit, Join, PublishRequest, PublishResponse};
pub use reply::{Answer, LineFault, Reply};
pub use request::{Ask, MAX_KEY, MAX_VALUE, Request};
pub use settings::Settings;
pub use shared::{SharedConfig, SharedState, SharedValue};
pub use state::{ClusterState, ClusterValue, Kept, LAST_NUMBER, StateId};
pub use text::Text;
pub use view::StateView;
pub use writing::{
    write_flag, write_id, write_id_list, write_ids, write_optional_id, write_state_id, write_term,
};
