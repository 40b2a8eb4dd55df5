//! The acts of a node whose journal is open, each with what it did.
ghost use Rattle.std.specs.Prelude.{◌≡◌, ◌≤◌, ◌<◌, IfOk, Some, Ok, Option};
ghost use Rattle.cluster_state.specs.Field.{last_number};
ghost use Rattle.cluster_state.specs.Initial.{empty_value};
ghost use Rattle.cluster_state.specs.States.{IsFitValue};
ghost use Rattle.cluster_state.specs.declared.state.ClusterState.{ClusterState as State};
ghost use Rattle.coord_state.specs.Outcomes.{join_outcome, response_outcome};
ghost use Rattle.coord_state.specs.StandsFor.{fields_of, request_of};
ghost use Rattle.world_model.specs.declared.acts.Act.TheVariants as act;
ghost use Rattle.world_model.specs.declared.acts.Message.TheVariants.{Publish as PublishMessage};
ghost use Rattle.replay_node.specs.Did.{outcome_of, WinsIn, CommitsLast};
ghost use Rattle.replay_node.specs.Published.{state_published};
ghost use Rattle.replay_node.specs.Sent.{message_of, taking};
ghost use Rattle.replay_node.specs.Stands.{HasRoomIn, journal_ghosts};
ghost use Rattle.replay_node.specs.StateDoes.{IsReportedBy, StateDoes, WritesText};

use crate::did::{Did, Effects};
use crate::message::{FitPublishRequest, SentMessage};
use cluster_state::{
    ApplyCommit, ClusterState, ClusterValue, Join, PublishResponse, Settings, SharedState,
};
use coord_state::{CoordState, Joined, NotTaken};
use state_journal::{Keeper, Ready, StateJournal};
use std::alloc::{AllocError, Global};
use std::rc::Rc;
use voting_config::{IdList, NodeId, NodeSet};
use zen_disk::{Fuse, MemDisks, Struck};

/// A node whose journal is open on a memory disk under a fuse.
pub type OpenNode = CoordState<StateJournal<Fuse<MemDisks>>>;

// What an act did that was not taken: after a fault of the disk the fuse says what struck it. A fault that no order has made means that
// memory ran out.
fn ended(state: &OpenNode, error: NotTaken) -> Result<Did, AllocError>
    ensures { IfOk result (λ d. IsReportedBy state.now error d) }
{
    match error {
        NotTaken::Stopped => Ok(Did::Stopped),
        NotTaken::Refused(cause) => Ok(Did::Refused(cause)),
        NotTaken::Disk => match state.keeper().disk().struck() {
            None => Err(AllocError),
            Some(Struck::Fault) => Ok(Did::Disk),
            Some(Struck::Stop) => Ok(Did::Crashed),
        },
    }
}

fn share(
    published: &Option<Rc<FitPublishRequest>>,
) -> Result<Option<Rc<FitPublishRequest>>, AllocError>
    ensures { IfOk result (λ shared. state_published shared ≡ state_published published.now) }
{
    match published {
        None => Ok(None),
        Some(publication) => {
            let publication = publication.clone()?;
            Ok(Some(publication))
        }
    }
}

// What counting a join of this term did.
fn counted(joined: Joined, term: u64) -> Did
    ensures outcome { outcome_of result ≡ Some (join_outcome {T = Unit {0}} (Ok joined)) }
    ensures won { WinsIn term result }
{
    Did::Taken(Effects {
        won: if joined.won { Some(term) } else { None },
        committed: None,
        sends: None,
    })
}

// What counting a response did that sends this commit, or none.
fn responded(
    sends: Option<ApplyCommit>,
    published: &Option<Rc<FitPublishRequest>>,
) -> Result<Did, AllocError>
    ensures outcome { IfOk result (λ did. outcome_of did ≡ Some (response_outcome {T = Unit {0}} (Ok sends))) }
    ensures committed { IfOk result (λ did. CommitsLast (state_published published.now) did) }
{
    match sends {
        None => Ok(Did::sends(None)),
        Some(commit) => {
            let committed = share(published)?;
            Ok(Did::Taken(Effects {
                won: None,
                committed,
                sends: Some(SentMessage::Commit(commit)),
            }))
        }
    }
}

/// The node takes the initial configuration.
pub fn set_initial(
    state: &mut OpenNode,
    alloc: Global,
    initial: &NodeSet,
) -> Result<Did, AllocError>
    ensures does { IfOk result (λ did. StateDoes state.old state.new (act.Bootstrap initial.now) did) }
    ensures text { IfOk result (λ did. (published : Option State) → WritesText (act.Bootstrap initial.now) published did) }
{
    let initial = Ready::initial(alloc, initial)?;
    match state.set_initial(initial) {
        Ok(()) => Ok(Did::sends(None)),
        Err(error) => ended(state, error.not_taken()),
    }
}

/// The node starts a join.
pub fn start_join(state: &mut OpenNode, candidate: NodeId, term: u64) -> Result<Did, AllocError>
    ensures does { IfOk result (λ did. StateDoes state.old state.new (act.StartJoin candidate term) did) }
    ensures text { IfOk result (λ did. (published : Option State) → WritesText (act.StartJoin candidate term) published did) }
{
    match state.start_join(candidate, term) {
        Ok(join) => Ok(Did::sends(Some(SentMessage::Join(join)))),
        Err(error) => ended(state, error.not_taken()),
    }
}

/// The node counts a join.
pub fn join(state: &mut OpenNode, join: &Join) -> Result<Did, AllocError>
    requires { HasRoomIn state.old (message_of (SentMessage.Join join.now)) }
    ensures does { IfOk result (λ did. StateDoes state.old state.new (act.TakeJoin join.now) did) }
    ensures text { IfOk result (λ did. (published : Option State) → WritesText (act.TakeJoin join.now) published did) }
{
    match state.join(join) {
        Ok(joined) => Ok(counted(joined, join.term)),
        Err(error) => ended(state, error.not_taken()),
    }
}

// The publication of a value of these settings that the node has begun. The state is made where it stays.
fn publication(
    state: &OpenNode,
    alloc: Global,
    version: u64,
    config: &IdList,
    settings: Settings,
) -> Result<SentMessage, AllocError>
    requires value { IsFitValue (record empty_value { settings = settings }) }
    requires version { version ≤ last_number }
    requires above { (fields_of journal_ghosts state.now).accepted.version < version }
    ensures { IfOk result
        (λ sent. message_of sent
        ≡ PublishMessage (request_of journal_ghosts state.now version config.now (record empty_value { settings = settings }))) }
{
    // For the proof alone: what is kept is within the limits of a state.
    let kept = state.kept();
    let published = ClusterState {
        term: kept.term,
        version,
        parent: Some(kept.accepted.id()),
        config: config.copy()?,
        committed: IdList::of(alloc, kept.committed.members())?,
        value: ClusterValue {
            master: None,
            members: IdList::new(alloc),
            exclusions: IdList::new(alloc),
            settings,
        },
    };
    let published = SharedState::of(alloc, published)?;
    let request = FitPublishRequest::of(alloc, state.me(), &published)?;
    Ok(SentMessage::Publish(request))
}

/// The node publishes a client's value that has these settings and nothing else. Answers the publication too, where there is one.
pub fn client_value(
    state: &mut OpenNode,
    alloc: Global,
    version: u64,
    config: &IdList,
    settings: Settings,
) -> Result<Did, AllocError>
    requires { IsFitValue (record empty_value { settings = settings }) }
    ensures does { IfOk result
        (λ did. StateDoes state.old state.new (act.Value version config.now (record empty_value { settings = settings })) did) }
    ensures text { IfOk result
        (λ did. (published : Option State)
        → WritesText (act.Value version config.now (record empty_value { settings = settings })) published did) }
{
    match state.take_value(version, config) {
        Err(error) => ended(state, error.not_taken()),
        Ok(()) => {
            let sent = publication(state, alloc, version, config, settings)?;
            Ok(Did::sends(Some(sent)))
        }
    }
}

/// The node accepts a published state. Nothing is copied of one that it refuses.
pub fn publish_request(
    state: &mut OpenNode,
    publication: &FitPublishRequest,
) -> Result<Did, AllocError>
    ensures does { IfOk result (λ did. StateDoes state.old state.new (act.Publish publication.now) did) }
    ensures text { IfOk result (λ did. (published : Option State) → WritesText (act.Publish publication.now) published did) }
{
    if let Err(error) = state.check_publish(publication.state()) {
        return ended(state, error.not_taken());
    }
    let ready = publication.ready()?;
    match state.publish_request(*publication.source(), ready) {
        Ok(response) => Ok(Did::sends(Some(SentMessage::Response(response)))),
        Err(error) => ended(state, error.not_taken()),
    }
}

/// The node counts a response. Where it sends a commit, it commits what it has published last.
pub fn publish_response(
    state: &mut OpenNode,
    response: &PublishResponse,
    published: &Option<Rc<FitPublishRequest>>,
) -> Result<Did, AllocError>
    requires { HasRoomIn state.old (message_of (SentMessage.Response response.now)) }
    ensures does { IfOk result (λ did. StateDoes state.old state.new (act.Response response.now) did) }
    ensures text { IfOk result (λ did. WritesText (act.Response response.now) (state_published published.now) did) }
{
    match state.publish_response(response) {
        Err(error) => ended(state, error.not_taken()),
        Ok(sends) => {
            let did = responded(sends, published)?;
            Ok(did)
        }
    }
}

/// The node takes a commit.
pub fn commit(state: &mut OpenNode, commit: &ApplyCommit) -> Result<Did, AllocError>
    ensures does { IfOk result (λ did. StateDoes state.old state.new (act.Commit commit.now) did) }
    ensures text { IfOk result (λ did. (published : Option State) → WritesText (act.Commit commit.now) published did) }
{
    match state.commit(commit) {
        Ok(()) => Ok(Did::sends(None)),
        Err(error) => ended(state, error.not_taken()),
    }
}

/// The node takes a message.
pub fn deliver(
    state: &mut OpenNode,
    message: &SentMessage,
    published: &Option<Rc<FitPublishRequest>>,
) -> Result<Did, AllocError>
    requires { HasRoomIn state.old (message_of message.now) }
    ensures does { IfOk result (λ did. StateDoes state.old state.new (taking (message_of message.now)) did) }
    ensures text { IfOk result (λ did. WritesText (taking (message_of message.now)) (state_published published.now) did) }
{
    match message {
        SentMessage::Join(sent) => join(state, sent),
        SentMessage::Publish(request) => publish_request(state, request),
        SentMessage::Response(response) => publish_response(state, response, published),
        SentMessage::Commit(sent) => commit(state, sent),
    }
}
