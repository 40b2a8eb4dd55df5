//! The core and the model, act for act: each answer of the core is the reply of the model, which an audit computes by the definitions.
ghost use Rattle.std.specs.Prelude.{◌≡◌, false, IfOk};
ghost use Rattle.world_model.specs.Acts.{is_opening};

use crate::names::{id, list};
use cluster_state::{
    ApplyCommit, ClusterState, ClusterValue, Join, Kept, PublishRequest, PublishResponse,
    SharedConfig, SharedState, SharedValue, StateId,
};
use coord_state::{CoordState, outcome_of};
use node_audit::Node;
use state_journal::{PlainKeeper, Ready};
use std::alloc::{AllocError, Global};
use std::fmt;
use trace_text::Ending;
use voting_config::{IdList, MAX_IDS, NodeId};
use world_model::{Act, ActReply, Message, Outcome};

// What a node is to do. The states are those of a in term 1, and the messages are to or from a.
#[derive(Clone, Copy)]
enum Call {
    // With this configuration.
    Boot(&'static str),
    // For a, in this term.
    Start(u64),
    // Of this source in a term, with the term and the version that it has accepted.
    Join(&'static str, u64, u64, u64),
    // Of this version and configuration, as are those that are published.
    Value(u64, &'static str),
    Publish(u64, &'static str),
    // Of this source, to version 1.
    Response(&'static str),
    // Of version 1.
    Commit,
}

// What a state of this version has as its parent, where each state follows the one of the version before.
fn parent(version: u64) -> Option<StateId> {
    match version {
        0 => None,
        1 => Some(StateId {
            term: 0,
            version: 0,
        }),
        _ => Some(StateId {
            term: 1,
            version: version.saturating_sub(1),
        }),
    }
}

// The state of this version and configuration that a publishes in term 1.
fn state(alloc: Global, version: u64, ids: &str) -> Result<SharedState, AllocError> {
    let state = ClusterState {
        term: 1,
        version,
        parent: parent(version),
        config: list(alloc, ids)?,
        committed: list(alloc, "a,b,c")?,
        value: ClusterValue::empty(alloc),
    };
    SharedState::of(alloc, state)
}

fn value(state: SharedState) -> Result<Act, AllocError>
    ensures { IfOk result (λ act. is_opening act ≡ false) }
{
    let version = state.version;
    let config = SharedConfig::of(state.share()?);
    Ok(Act::Value(version, config, SharedValue::of(state)))
}

fn join(source: &str, term: u64, last_term: u64, last_version: u64) -> Act
    ensures { is_opening result ≡ false }
{
    Act::TakeJoin(Join {
        source: id(source),
        target: id("a"),
        term,
        last_term,
        last_version,
    })
}

fn response(source: &str) -> Act
    ensures { is_opening result ≡ false }
{
    Act::Response(PublishResponse {
        source: id(source),
        target: id("a"),
        term: 1,
        version: 1,
    })
}

fn commit() -> Act
    ensures { is_opening result ≡ false }
{
    Act::Commit(ApplyCommit {
        source: id("a"),
        term: 1,
        version: 1,
    })
}

fn published(state: SharedState) -> Act
    ensures { is_opening result ≡ false }
{
    Act::Publish(PublishRequest {
        source: id("a"),
        state,
    })
}

fn act(alloc: Global, call: Call) -> Result<Act, AllocError>
    ensures { IfOk result (λ act. is_opening act ≡ false) }
{
    match call {
        Call::Boot(ids) => Ok(Act::Bootstrap(SharedConfig::of(state(alloc, 0, ids)?))),
        Call::Start(term) => Ok(Act::StartJoin(id("a"), term)),
        Call::Join(source, term, last_term, last_version) => {
            Ok(join(source, term, last_term, last_version))
        }
        Call::Value(version, ids) => value(state(alloc, version, ids)?),
        Call::Publish(version, ids) => Ok(published(state(alloc, version, ids)?)),
        Call::Response(source) => Ok(response(source)),
        Call::Commit => Ok(commit()),
    }
}

// The state ready to be kept, where it is within the limits, as in each act here.
fn ready(alloc: Global, state: &SharedState) -> Result<Ready, AllocError> {
    if state.is_fit() {
        Ready::of(alloc, state)
    } else {
        Err(AllocError)
    }
}

// Publishes the empty value, as in each act here, with a copy of this configuration.
fn publishes(
    alloc: Global,
    node: &mut CoordState<PlainKeeper>,
    version: u64,
    config: &IdList,
) -> Result<Outcome, AllocError> {
    let config = config.copy()?;
    match node.client_value(alloc, version, config, ClusterValue::empty(alloc)) {
        Ok(answer) => Ok(outcome_of(answer)),
        Err(error) => Err(error),
    }
}

// Does the act in the core.
fn core_outcome(
    alloc: Global,
    node: &mut CoordState<PlainKeeper>,
    act: &Act,
) -> Result<Outcome, AllocError> {
    if node.votes().len() >= MAX_IDS || node.acks().len() >= MAX_IDS {
        return Err(AllocError);
    }
    match act {
        Act::Bootstrap(config) => match Ready::initial(alloc, &config.to_set()) {
            Ok(initial) => Ok(outcome_of(node.set_initial(initial))),
            Err(error) => Err(error),
        },
        Act::StartJoin(candidate, term) => Ok(outcome_of(node.start_join(*candidate, *term))),
        Act::TakeJoin(join) => Ok(outcome_of(node.join(join))),
        Act::Value(version, config, _) => publishes(alloc, node, *version, config),
        Act::Publish(request) => match ready(alloc, &request.state) {
            Ok(state) => Ok(outcome_of(node.publish_request(request.source, state))),
            Err(error) => Err(error),
        },
        Act::Response(response) => Ok(outcome_of(node.publish_response(response))),
        Act::Commit(commit) => Ok(outcome_of(node.commit(commit))),
        Act::Open(_) => Ok(Outcome::Answered(ActReply::Taken(None, false))),
    }
}

// What an act answered, as a text.

#[derive(Clone, Copy)]
struct IdsText<'a>(&'a IdList);

impl<'a> fmt::Display for IdsText<'a> {
    fn fmt<W: fmt::Write>(&self, f: &mut fmt::Formatter<W>) -> fmt::Result {
        for id in self.0.as_slice() {
            write!(f, "{id}")?;
        }
        Ok(())
    }
}

#[derive(Clone, Copy)]
struct ParentText(Option<StateId>);

impl fmt::Display for ParentText {
    fn fmt<W: fmt::Write>(&self, f: &mut fmt::Formatter<W>) -> fmt::Result {
        match self.0 {
            Some(id) => write!(f, "{}/{}", id.term, id.version),
            None => write!(f, "_"),
        }
    }
}

#[derive(Clone, Copy)]
struct StateText<'a>(&'a ClusterState);

impl<'a> fmt::Display for StateText<'a> {
    fn fmt<W: fmt::Write>(&self, f: &mut fmt::Formatter<W>) -> fmt::Result {
        let state = self.0;
        write!(
            f,
            "{}/{} {} {} {} {}",
            state.term,
            state.version,
            ParentText(state.parent),
            IdsText(&state.config),
            IdsText(&state.committed),
            IdsText(&state.value.members)
        )
    }
}

#[derive(Clone, Copy)]
struct MessageText<'a>(&'a Message);

impl<'a> fmt::Display for MessageText<'a> {
    fn fmt<W: fmt::Write>(&self, f: &mut fmt::Formatter<W>) -> fmt::Result {
        match self.0 {
            Message::Join(j) => write!(
                f,
                "join {} {} {} {}/{}",
                j.source, j.target, j.term, j.last_term, j.last_version
            ),
            Message::Publish(request) => {
                write!(
                    f,
                    "publish {} {}",
                    request.source,
                    StateText(&request.state)
                )
            }
            Message::Response(r) => write!(
                f,
                "response {} {} {}/{}",
                r.source, r.target, r.term, r.version
            ),
            Message::Commit(c) => write!(f, "commit {} {}/{}", c.source, c.term, c.version),
        }
    }
}

#[derive(Clone, Copy)]
struct ReplyText<'a>(&'a ActReply);

impl<'a> fmt::Display for ReplyText<'a> {
    fn fmt<W: fmt::Write>(&self, f: &mut fmt::Formatter<W>) -> fmt::Result {
        match self.0 {
            ActReply::Taken(Some(message), _) => write!(f, "{}", MessageText(message)),
            ActReply::Taken(None, won) => write!(f, "won={won}"),
            ActReply::Refused(cause) => write!(f, "{cause:?}"),
            ActReply::Stopped => write!(f, "stopped"),
        }
    }
}

fn is_reply(alloc: Global, reply: &ActReply, wanted: &str) -> bool {
    match format!(in alloc; "{}", ReplyText(reply)) {
        Ok(text) => text.as_str() == wanted,
        Err(_) => false,
    }
}

// A plain keeper has no faults.
fn is_outcome(alloc: Global, outcome: &Outcome, wanted: &str) -> bool {
    match outcome {
        Outcome::Answered(reply) => is_reply(alloc, reply, wanted),
        Outcome::Disk(_) | Outcome::Crashed(_) => false,
    }
}

// A call, and what the core and the model answer.
type Row = (Call, &'static str);

// Whether the core answers a call so.
fn core_does(
    alloc: Global,
    node: &mut CoordState<PlainKeeper>,
    row: Row,
) -> Result<bool, AllocError> {
    let (call, wanted) = row;
    let act = act(alloc, call)?;
    match core_outcome(alloc, node, &act) {
        Ok(outcome) => Ok(is_outcome(alloc, &outcome, wanted)),
        Err(error) => Err(error),
    }
}

fn core_answers(alloc: Global, node: &mut CoordState<PlainKeeper>, rows: &[Row]) -> bool {
    for row in rows {
        if core_does(alloc, node, *row) != Ok(true) {
            return false;
        }
    }
    true
}

// Whether a node of the core that was just opened over an empty journal answers the calls of both lists so.
fn core_plays(alloc: Global, me: NodeId, first: &[Row], then: &[Row]) -> bool {
    match PlainKeeper::new(alloc) {
        Ok(keeper) => {
            let mut node = CoordState::new(me, keeper);
            core_answers(alloc, &mut node, first) && core_answers(alloc, &mut node, then)
        }
        Err(_) => false,
    }
}

// Whether a reply wins an election, and the word that a trace has for it.
fn ending_of(reply: &ActReply) -> (bool, Ending) {
    match reply {
        ActReply::Taken(_, won) => (*won, Ending::Taken),
        ActReply::Refused(cause) => (false, Ending::Refused(*cause)),
        ActReply::Stopped => (false, Ending::Stopped),
    }
}

// How an act ends in the model, where it answers so.
fn model_ending(
    alloc: Global,
    model: &Node,
    me: NodeId,
    act: &Act,
    wanted: &str,
) -> Option<(bool, Ending)>
    requires { is_opening act.now ≡ false }
{
    match model.reply(alloc, me, act) {
        Ok(reply) => is_reply(alloc, &reply, wanted).then_some(ending_of(&reply)),
        Err(_) => None,
    }
}

// The node of the model after a call, where it answers so.
fn model_does(alloc: Global, model: Node, me: NodeId, row: Row) -> Option<Node> {
    let (call, wanted) = row;
    let act = act(alloc, call).ok()?;
    match model_ending(alloc, &model, me, &act, wanted) {
        Some((won, ending)) => model.ended(alloc, &act, won, ending).ok(),
        None => None,
    }
}

fn model_answers(alloc: Global, model: Node, me: NodeId, rows: &[Row]) -> Option<Node> {
    let mut model = model;
    for row in rows {
        model = model_does(alloc, model, me, *row)?;
    }
    Some(model)
}

// The same node of the model after the calls of both lists, where it answers them so.
fn played(alloc: Global, me: NodeId, first: &[Row], then: &[Row]) -> Option<Node> {
    let model = Node::opened(alloc, Kept::empty(alloc).ok()?).ok()?;
    let model = model_answers(alloc, model, me, first)?;
    model_answers(alloc, model, me, then)
}

fn model_plays(alloc: Global, me: NodeId, first: &[Row], then: &[Row]) -> bool {
    played(alloc, me, first, then).is_some()
}

const B_JOINS: &[Row] = &[
    (Call::Boot("a,b,c"), "won=false"),
    (Call::Start(1), "join b a 1 0/0"),
];

const C_JOINS: &[Row] = &[
    (Call::Boot("a,b,c"), "won=false"),
    (Call::Start(1), "join c a 1 0/0"),
];

const A_WINS: &[Row] = &[
    (Call::Boot("a,b,c"), "won=false"),
    (Call::Start(1), "join a a 1 0/0"),
    (Call::Join("a", 1, 0, 0), "won=false"),
    (Call::Join("b", 1, 0, 0), "won=true"),
];

const A_PUBLISHES: &[Row] = &[
    (Call::Boot("a,b,c"), "won=false"),
    (Call::Start(1), "join a a 1 0/0"),
    (Call::Join("a", 1, 0, 0), "won=false"),
    (Call::Join("b", 1, 0, 0), "won=true"),
    (Call::Value(1, "a,b,c"), "publish a 1/1 0/0 abc abc "),
    (Call::Publish(1, "a,b,c"), "response a a 1/1"),
];

const NONE: &[Row] = &[];

const A_IS_ELECTED_ONCE: &[Row] = &[
    (Call::Join("b", 1, 0, 0), "won=false"),
    (Call::Boot("a,b"), "Initial(AlreadySet)"),
];

const A_WINS_AGAIN: &[Row] = &[
    (Call::Start(2), "join a a 2 0/0"),
    (Call::Join("c", 2, 0, 0), "won=false"),
    (Call::Join("a", 2, 0, 0), "won=true"),
];

const B_ACCEPTS: &[Row] = &[(Call::Publish(1, "a,b,c"), "response b a 1/1")];

const A_COMMITS: &[Row] = &[
    (Call::Response("a"), "won=false"),
    (Call::Response("b"), "commit a 1/1"),
    (Call::Commit, "won=false"),
];

const C_HAS_NOT_ACCEPTED: &[Row] = &[(Call::Commit, "Commit(AcceptedTermMismatch(0, 1))")];

const A_CHANGES_THE_VOTERS: &[Row] = &[
    (Call::Value(2, "a,b"), "publish a 1/2 1/1 ab abc "),
    (Call::Value(3, "a,b"), "Value(NotAccepted(2, 1))"),
    (Call::Commit, "Commit(Publishing(1, 2))"),
    (Call::Publish(2, "a,b"), "response a a 1/2"),
    (Call::Publish(2, "a,b"), "Publish(VersionNotGreater(2, 2))"),
    (Call::Value(3, "a,b,c"), "Value(Reconfiguring)"),
];

const A_BECOMES_THE_ONLY_VOTER: &[Row] = &[
    (Call::Value(1, "c"), "Value(NoJoinQuorum)"),
    (Call::Value(1, "a"), "publish a 1/1 0/0 a abc "),
    (Call::Publish(1, "a"), "response a a 1/1"),
    (Call::Response("a"), "won=false"),
    (Call::Response("c"), "commit a 1/1"),
    (Call::Start(2), "join a a 2 1/1"),
    (Call::Join("a", 2, 1, 1), "won=false"),
    (Call::Join("c", 2, 0, 0), "won=true"),
];

const BEFORE: &[Row] = &[
    (Call::Boot("_"), "Initial(EmptyConfig)"),
    (Call::Join("b", 0, 0, 0), "Join(NotStarted)"),
    (Call::Start(0), "Start(TermNotGreater(0, 0))"),
    (
        Call::Start(4_611_686_018_427_387_905),
        "Start(TermTooLarge(4611686018427387905))",
    ),
    (Call::Start(1), "join a a 1 0/0"),
    (Call::Join("b", 1, 0, 0), "Join(NoConfig)"),
];

const OTHER: &[Row] = &[(Call::Join("b", 1, 0, 0), "Join(NotForMe(a))")];

const FRESHER: &[Row] = &[
    (Call::Boot("a,b,c"), "won=false"),
    (Call::Start(1), "join a a 1 0/0"),
    (Call::Join("b", 1, 0, 1), "Join(FresherVersion(0, 1))"),
];

const TOO_LARGE: &[Row] = &[(
    Call::Value(4_611_686_018_427_387_905, "a,b,c"),
    "Value(VersionTooLarge(4611686018427387905))",
)];

// What is shown, a node, and the two lists of its calls.
const PLAYS: &[(&str, &str, &[Row], &[Row])] = &[
    ("a_quorum_elects_once", "b", B_JOINS, NONE),
    ("a_quorum_elects_once", "c", C_JOINS, NONE),
    ("a_quorum_elects_once", "a", A_WINS, A_IS_ELECTED_ONCE),
    (
        "a_new_round_begins_without_votes",
        "a",
        A_WINS,
        A_WINS_AGAIN,
    ),
    ("a_quorum_commits", "b", B_JOINS, B_ACCEPTS),
    ("a_quorum_commits", "a", A_PUBLISHES, A_COMMITS),
    ("a_quorum_commits", "c", C_JOINS, C_HAS_NOT_ACCEPTED),
    (
        "one_change_of_the_configuration",
        "a",
        A_PUBLISHES,
        A_CHANGES_THE_VOTERS,
    ),
    (
        "both_configurations_have_a_quorum",
        "a",
        A_WINS,
        A_BECOMES_THE_ONLY_VOTER,
    ),
    ("acts_are_refused_with_these_causes", "a", BEFORE, NONE),
    ("acts_are_refused_with_these_causes", "b", B_JOINS, OTHER),
    ("acts_are_refused_with_these_causes", "a", FRESHER, NONE),
    ("acts_are_refused_with_these_causes", "a", A_WINS, TOO_LARGE),
];

#[test]
fn the_core_and_the_model_answer_each_call_so(rt: HostRuntime) {
    for (name, me, first, then) in PLAYS {
        assert!(rt;
            core_plays(rt.alloc(), id(me), first, then),
            "{name}: {me}, the core"
        );
        assert!(rt;
            model_plays(rt.alloc(), id(me), first, then),
            "{name}: {me}, the model"
        );
    }
}
