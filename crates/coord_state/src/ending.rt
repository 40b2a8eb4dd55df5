//! How an act ended: with what it answers where it is taken, or not taken and why.
ghost use Rattle.std.specs.Prelude.{◌≡◌};
ghost use Rattle.world_model.specs.declared.acts.ActReply.{ActReply};
ghost use Rattle.world_model.specs.declared.acts.Cause.{Cause as AnyCause};
ghost use Rattle.world_model.specs.declared.acts.Cause.TheVariants as cause;
ghost use Rattle.coord_state.specs.Outcomes.{IsReported, ending, not_taken, outcome, value_outcome, plain, sends_join, counted, sends_request, sends_response, sends_commit};

use crate::coord::{ActError, Joined};
use cluster_state::{
    ApplyCommit, CommitCause, InitialCause, Join, JoinCause, PublishCause, PublishRequest,
    PublishResponse, ResponseCause, StartCause, ValueCause,
};
use world_model::{ActReply, Cause, Message, Outcome};

/// How an act ended that was not taken.
#[derive(Clone, Copy, Debug, PartialEq, Eq)]
pub enum NotTaken {
    /// An earlier act met a fault of the disk, and the journal was not opened since.
    Stopped,
    Refused(Cause),
    /// The disk failed.
    Disk,
}

/// Why an act of one kind is refused.
pub trait ActCause {
    /// The same among the causes of all acts.
    ghost cause_of: { Self → AnyCause };

    /// The same among the causes of all acts.
    fn into_cause(self) -> Cause
        ensures { result ≡ cause_of self };
}

impl ActCause for InitialCause {
    ghost cause_of = { cause.Initial };

    fn into_cause(self) -> Cause {
        Cause::Initial(self)
    }
}

impl ActCause for StartCause {
    ghost cause_of = { cause.Start };

    fn into_cause(self) -> Cause {
        Cause::Start(self)
    }
}

impl ActCause for JoinCause {
    ghost cause_of = { cause.Join };

    fn into_cause(self) -> Cause {
        Cause::Join(self)
    }
}

impl ActCause for ValueCause {
    ghost cause_of = { cause.Value };

    fn into_cause(self) -> Cause {
        Cause::Value(self)
    }
}

impl ActCause for PublishCause {
    ghost cause_of = { cause.Publish };

    fn into_cause(self) -> Cause {
        Cause::Publish(self)
    }
}

impl ActCause for ResponseCause {
    ghost cause_of = { cause.Response };

    fn into_cause(self) -> Cause {
        Cause::Response(self)
    }
}

impl ActCause for CommitCause {
    ghost cause_of = { cause.Commit };

    fn into_cause(self) -> Cause {
        Cause::Commit(self)
    }
}

impl<C: ActCause, T: Drop> ActError<C, T> {
    /// How the act ended, without what it took.
    pub fn not_taken(self) -> NotTaken
        ensures { result ≡ not_taken C.cause_of self }
    {
        match self {
            ActError::Stopped(_) => NotTaken::Stopped,
            ActError::Refused(cause, _) => NotTaken::Refused(cause.into_cause()),
            ActError::Disk => NotTaken::Disk,
        }
    }
}

/// What an act answers that is taken.
pub trait ActAnswer {
    /// The reply that it is.
    ghost reply_of: { Self → ActReply };

    /// The reply that it is.
    fn into_reply(self) -> ActReply
        ensures { result ≡ reply_of self };
}

impl ActAnswer for () {
    ghost reply_of = { plain };

    fn into_reply(self) -> ActReply {
        ActReply::Taken(None, false)
    }
}

impl ActAnswer for Join {
    ghost reply_of = { sends_join };

    fn into_reply(self) -> ActReply {
        ActReply::Taken(Some(Message::Join(self)), false)
    }
}

impl ActAnswer for Joined {
    ghost reply_of = { counted };

    fn into_reply(self) -> ActReply {
        ActReply::Taken(None, self.won)
    }
}

impl ActAnswer for PublishRequest {
    ghost reply_of = { sends_request };

    fn into_reply(self) -> ActReply {
        ActReply::Taken(Some(Message::Publish(self)), false)
    }
}

impl ActAnswer for PublishResponse {
    ghost reply_of = { sends_response };

    fn into_reply(self) -> ActReply {
        ActReply::Taken(Some(Message::Response(self)), false)
    }
}

impl ActAnswer for Option<ApplyCommit> {
    ghost reply_of = { sends_commit };

    fn into_reply(self) -> ActReply {
        match self {
            None => ActReply::Taken(None, false),
            Some(commit) => ActReply::Taken(Some(Message::Commit(commit)), false),
        }
    }
}

/// The outcome of an act, by what it answered.
pub fn outcome_of<A: ActAnswer, C: ActCause, T: Drop>(answer: Result<A, ActError<C, T>>) -> Outcome
    ensures value { result ≡ outcome A.reply_of C.cause_of answer }
    ensures told { IsReported result }
{
    match answer {
        Ok(taken) => Outcome::Answered(taken.into_reply()),
        Err(error) => error.not_taken().into_outcome(),
    }
}

/// The outcome of `take_value`, by what it answered and the request that its caller has made.
pub fn outcome_of_value<T: Drop>(
    answer: Result<(), ActError<ValueCause, T>>,
    request: PublishRequest,
) -> Outcome
    ensures value { result ≡ value_outcome request answer }
    ensures told { IsReported result }
{
    match answer {
        Ok(()) => Outcome::Answered(request.into_reply()),
        Err(error) => error.not_taken().into_outcome(),
    }
}

impl NotTaken {
    /// The outcome of the act. A record that the disk failed to write counts as not kept until it is opened again.
    pub fn into_outcome(self) -> Outcome
        ensures value { result ≡ ending self }
        ensures told { IsReported result }
    {
        match self {
            NotTaken::Stopped => Outcome::Answered(ActReply::Stopped),
            NotTaken::Refused(cause) => Outcome::Answered(ActReply::Refused(cause)),
            NotTaken::Disk => Outcome::Disk(false),
        }
    }
}
