//! The causes of refusals as text, each with its values, the node's own first.
ghost use Rattle.std.specs.Prelude.{◌≡◌, ◌++◌, OnOk};
ghost use Rattle.trace_text.specs.Trace.{one as one_text, two as two_text, named as named_text, initial_text, start_text, join_text, value_text, publish_text, response_text, commit_text, cause_text, ending_text};

use crate::Ending;
use cluster_state::{
    CommitCause, InitialCause, JoinCause, PublishCause, ResponseCause, StartCause, ValueCause,
};
use std::alloc::AllocError;
use text::Text;
use voting_config::NodeId;
use world_model::Cause;

fn one(text: &mut Text, name: &str, x: u64) -> Result<(), AllocError>
    ensures { OnOk result (text.new ≡ text.old ++ one_text name.now x) }
{
    text.word(name)?;
    text.word("(")?;
    text.number_and(x, b')')
}

fn two(text: &mut Text, name: &str, x: u64, y: u64) -> Result<(), AllocError>
    ensures { OnOk result (text.new ≡ text.old ++ two_text name.now x y) }
{
    text.word(name)?;
    text.word("(")?;
    text.number_and(x, b',')?;
    text.number_and(y, b')')
}

fn named(text: &mut Text, name: &str, node: NodeId) -> Result<(), AllocError>
    ensures { OnOk result (text.new ≡ text.old ++ named_text name.now node) }
{
    text.word(name)?;
    text.word("(")?;
    text.id_and(&node, b')')
}

fn initial_cause(text: &mut Text, cause: InitialCause) -> Result<(), AllocError>
    ensures { OnOk result (text.new ≡ text.old ++ initial_text cause) }
{
    match cause {
        InitialCause::AlreadySet => text.word("AlreadySet"),
        InitialCause::EmptyConfig => text.word("EmptyConfig"),
    }
}

fn start_cause(text: &mut Text, cause: StartCause) -> Result<(), AllocError>
    ensures { OnOk result (text.new ≡ text.old ++ start_text cause) }
{
    match cause {
        StartCause::TermNotGreater(x, y) => two(text, "TermNotGreater", x, y),
        StartCause::TermTooLarge(x) => one(text, "TermTooLarge", x),
    }
}

fn join_cause(text: &mut Text, cause: JoinCause) -> Result<(), AllocError>
    ensures { OnOk result (text.new ≡ text.old ++ join_text cause) }
{
    match cause {
        JoinCause::NotForMe(node) => named(text, "NotForMe", node),
        JoinCause::TermMismatch(x, y) => two(text, "TermMismatch", x, y),
        JoinCause::NotStarted => text.word("NotStarted"),
        JoinCause::FresherTerm(x, y) => two(text, "FresherTerm", x, y),
        JoinCause::FresherVersion(x, y) => two(text, "FresherVersion", x, y),
        JoinCause::NoConfig => text.word("NoConfig"),
    }
}

fn value_cause(text: &mut Text, cause: ValueCause) -> Result<(), AllocError>
    ensures { OnOk result (text.new ≡ text.old ++ value_text cause) }
{
    match cause {
        ValueCause::NotWon => text.word("NotWon"),
        ValueCause::NotAccepted(x, y) => two(text, "NotAccepted", x, y),
        ValueCause::VersionNotGreater(x, y) => two(text, "VersionNotGreater", x, y),
        ValueCause::VersionTooLarge(x) => one(text, "VersionTooLarge", x),
        ValueCause::Reconfiguring => text.word("Reconfiguring"),
        ValueCause::NoJoinQuorum => text.word("NoJoinQuorum"),
    }
}

fn publish_cause(text: &mut Text, cause: PublishCause) -> Result<(), AllocError>
    ensures { OnOk result (text.new ≡ text.old ++ publish_text cause) }
{
    match cause {
        PublishCause::TermMismatch(x, y) => two(text, "TermMismatch", x, y),
        PublishCause::VersionNotGreater(x, y) => two(text, "VersionNotGreater", x, y),
    }
}

fn response_cause(text: &mut Text, cause: ResponseCause) -> Result<(), AllocError>
    ensures { OnOk result (text.new ≡ text.old ++ response_text cause) }
{
    match cause {
        ResponseCause::NotForMe(node) => named(text, "NotForMe", node),
        ResponseCause::NotWon => text.word("NotWon"),
        ResponseCause::TermMismatch(x, y) => two(text, "TermMismatch", x, y),
        ResponseCause::VersionMismatch(x, y) => two(text, "VersionMismatch", x, y),
    }
}

fn commit_cause(text: &mut Text, cause: CommitCause) -> Result<(), AllocError>
    ensures { OnOk result (text.new ≡ text.old ++ commit_text cause) }
{
    match cause {
        CommitCause::TermMismatch(x, y) => two(text, "TermMismatch", x, y),
        CommitCause::AcceptedTermMismatch(x, y) => two(text, "AcceptedTermMismatch", x, y),
        CommitCause::VersionMismatch(x, y) => two(text, "VersionMismatch", x, y),
        CommitCause::Publishing(x, y) => two(text, "Publishing", x, y),
    }
}

/// Writes a cause with its values, as `TermMismatch(2,1)`.
pub fn write_cause(text: &mut Text, cause: Cause) -> Result<(), AllocError>
    ensures { OnOk result (text.new ≡ text.old ++ cause_text cause) }
{
    match cause {
        Cause::Initial(cause) => initial_cause(text, cause),
        Cause::Start(cause) => start_cause(text, cause),
        Cause::Join(cause) => join_cause(text, cause),
        Cause::Value(cause) => value_cause(text, cause),
        Cause::Publish(cause) => publish_cause(text, cause),
        Cause::Response(cause) => response_cause(text, cause),
        Cause::Commit(cause) => commit_cause(text, cause),
    }
}

/// Writes how an act ended: `ok`, `refused:` and the cause, `stopped`, `disk` or `crashed`.
pub fn write_ending(text: &mut Text, ending: Ending) -> Result<(), AllocError>
    ensures { OnOk result (text.new ≡ text.old ++ ending_text ending) }
{
    match ending {
        Ending::Taken => text.word("ok"),
        Ending::Refused(cause) => {
            text.word("refused:")?;
            write_cause(text, cause)
        }
        Ending::Stopped => text.word("stopped"),
        Ending::Disk => text.word("disk"),
        Ending::Crashed => text.word("crashed"),
    }
}
