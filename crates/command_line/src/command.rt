//! The commands of the program, with what each is given.
ghost use Rattle.std.specs.Prelude.{◌≡◌};
ghost use Rattle.command_line.specs.declared.command.WordsError.TheVariants as error;

use cluster_state::Text;
use schedule_text::Level;
use std::alloc::AllocError;
use std::marker::Model;
use thiserror::Error;
use voting_config::{NodeId, NodeSet};
use zen_link::LinkSettings;

/// With what a node's link is to be opened, seen as what a host is told of it.
#[derive(Drop)]
pub struct LinkWords {
    settings: LinkSettings,
}

impl Model for LinkWords {
    ghost use Rattle.zen_host.specs.HostCalls.{ToldSettings, told_settings};

    ghost Value = { ToldSettings };

    ghost view = { λ w. told_settings w.settings };
}

impl LinkWords {
    ghost use Rattle.std.specs.Prelude.{◌≡◌};
    ghost use Rattle.zen_host.specs.HostCalls.{told_settings};

    /// The words that say these settings.
    pub fn of(settings: LinkSettings) -> LinkWords
        ensures { result ≡ told_settings settings }
    {
        LinkWords { settings }
    }

    /// The settings.
    pub fn settings(&self) -> &LinkSettings
        ensures { told_settings result.now ≡ self.now }
    {
        &self.settings
    }
}

/// How many lines a generated schedule has at most.
pub const MAX_STEPS: u64 = 100_000;

/// The greatest first port of a trial.
pub const MAX_PORT: u64 = 65_533;

/// How much of its life a node writes.
#[derive(Clone, Copy)]
pub enum HistoryLevel {
    /// All that came, and all that was done and sent.
    All,
    /// What was done.
    Acts,
    /// Nothing.
    Nothing,
}

/// How a node is to run.
#[derive(Drop)]
pub struct NodeWords {
    /// The node, the address at which it listens, and its peers, in the order of the words.
    pub link: LinkWords,
    /// The folder of its journal.
    pub dir: Text,
    /// The initial configuration, which may be empty.
    pub initial: NodeSet,
    /// The nodes that vote and never lead, which may be none.
    pub voting_only: NodeSet,
    /// Whether configurations may become smaller.
    pub shrink: bool,
    /// Whether the node goes by the second profile of the policy, and not by the first.
    pub second: bool,
    /// After how many inputs the node ends.
    pub turns: u64,
    /// How much of its life it writes.
    pub history: HistoryLevel,
}

/// How a trial is to run.
#[derive(Drop)]
pub struct TrialWords {
    /// The program that runs a node.
    pub program: Text,
    /// The folder of its journals.
    pub dir: Text,
    /// The first of three ports, from 1 to [`MAX_PORT`].
    pub port: u64,
    /// After how many inputs a node ends.
    pub turns: u64,
}

/// What the program is to do.
#[derive(Drop)]
pub enum ProgramCommand {
    /// Replay a schedule of this level.
    Replay(Level),
    /// Show what the journal in this folder keeps.
    Inspect(Text),
    /// Run a node.
    Node(NodeWords),
    /// Replay a generated schedule.
    Generate {
        /// From which number it is generated.
        number: u64,
        /// How many lines it has, at most [`MAX_STEPS`].
        steps: u64,
    },
    /// Run the trial of three nodes.
    Trial(TrialWords),
    /// Say how these nodes, at least one, go on after a schedule.
    Rescue(NodeSet),
    /// Make the node of this id the only voter of a new cluster.
    UnsafeBootstrap {
        id: NodeId,
        /// The folder of its journal.
        dir: Text,
    },
    /// Take the node whose journal is in this folder out of its cluster.
    DetachCluster(Text),
    /// Say whether a recorded trace is legal.
    Audit,
}

/// Why the words give no command.
#[derive(Clone, Copy, Debug, PartialEq, Eq, Drop, Error)]
pub enum WordsError {
    #[error("the words are no command")]
    Usage,
    #[error("memory ran out")]
    Memory,
}

impl From<AllocError> for WordsError {
    ghost from_gives = { λ _ e. e ≡ error.Memory };

    fn from(_e: AllocError) -> WordsError {
        WordsError::Memory
    }
}
