//! Words that are commands, and words that are none. Which words are commands follows from docs/formats.md.
use crate::long_lists::with_ids;
use clap::error::ErrorKind;
use command_line::{HistoryLevel, NodeWords, ProgramCommand, WordsError, program, read_words};
use schedule_text::Level;
use std::alloc::{AllocError, Global};
use voting_config::NodeId;
use zen_link::Peer;

fn level_name(level: Level) -> &'static str {
    match level {
        Level::Core => "core",
        Level::Node => "node",
    }
}

// What is said of a history, if not all of it is written.
fn lines_left(history: HistoryLevel) -> &'static str {
    match history {
        HistoryLevel::All => "",
        HistoryLevel::Acts => ", acts alone",
        HistoryLevel::Nothing => ", no history",
    }
}

fn peer_list(alloc: Global, peers: &[Peer]) -> Result<String, AllocError> {
    let mut text = String::new(alloc);
    for peer in peers {
        let item = format!(in alloc; " {}={}", peer.id, peer.address)?;
        text.push_str(&item)?;
    }
    Ok(text)
}

fn id_list(alloc: Global, ids: &[NodeId]) -> Result<String, AllocError> {
    let mut text = String::new(alloc);
    for id in ids {
        text.push_str(" ")?;
        text.push_str(id.as_str())?;
    }
    Ok(text)
}

fn node_text(alloc: Global, node: &NodeWords) -> Result<String, AllocError> {
    let link = node.link.settings();
    let peers = peer_list(alloc, &link.peers)?;
    let initial = id_list(alloc, node.initial.as_slice())?;
    let voting_only = id_list(alloc, node.voting_only.as_slice())?;
    format!(in alloc;
        "node {} at {} in {}, peers{peers}, initial{initial}, voting-only{voting_only}, turns {}, shrink {}, second {}{}",
        link.me,
        link.listen,
        node.dir.as_str(),
        node.turns,
        node.shrink,
        node.second,
        lines_left(node.history)
    )
}

fn command_text(alloc: Global, command: &ProgramCommand) -> Result<String, AllocError> {
    match command {
        ProgramCommand::Replay(level) => format!(in alloc; "replay {}", level_name(*level)),
        ProgramCommand::Inspect(dir) => format!(in alloc; "inspect {}", dir.as_str()),
        ProgramCommand::Node(node) => node_text(alloc, node),
        ProgramCommand::Generate { number, steps } => {
            format!(in alloc; "generate {number} of {steps}")
        }
        ProgramCommand::Trial(trial) => format!(in alloc;
            "trial of {} in {}, port {}, turns {}",
            trial.program.as_str(),
            trial.dir.as_str(),
            trial.port,
            trial.turns
        ),
        ProgramCommand::Rescue(up) => {
            let up = id_list(alloc, up.as_slice())?;
            format!(in alloc; "rescue of{up}")
        }
        ProgramCommand::UnsafeBootstrap { id, dir } => {
            format!(in alloc; "alone {id} in {}", dir.as_str())
        }
        ProgramCommand::DetachCluster(dir) => format!(in alloc; "detach {}", dir.as_str()),
        ProgramCommand::Audit => String::from_str(alloc, "audit"),
    }
}

fn words_of(alloc: Global, line: &str) -> Result<Vec<String>, AllocError> {
    let mut words = Vec::new(alloc);
    for word in line.split(' ') {
        let word = String::from_str(alloc, word)?;
        words.push(word)?;
    }
    Ok(words)
}

// The command that the words of a line are, in words of the test's own.
fn told(alloc: Global, line: &str) -> Result<String, AllocError> {
    let words = words_of(alloc, line)?;
    match read_words(alloc, &words) {
        Ok(command) => command_text(alloc, &command),
        Err(WordsError::Usage) => String::from_str(alloc, "usage"),
        Err(WordsError::Memory) => Err(AllocError),
    }
}

fn is_told(alloc: Global, line: &str, want: &str) -> Result<bool, AllocError> {
    let told = told(alloc, line)?;
    Ok(told.as_str() == want)
}

const COMMANDS: &[(&str, &str)] = &[
    ("replay --level core", "replay core"),
    ("replay --level=node", "replay node"),
    ("inspect --dir a/b", "inspect a/b"),
    ("inspect --dir=a=b", "inspect a=b"),
    ("inspect --dir inspect", "inspect inspect"),
    (
        "node --id a --dir d --listen h:1 --peers b=h:2,c=h:3 --initial a,b --turns 5",
        "node a at h:1 in d, peers b=h:2 c=h:3, initial a b, voting-only, turns 5, shrink true, second true",
    ),
    (
        "node --no-shrink --turns=0 --initial=_ --peers=_ --listen=h --dir=d/e --id=a-1",
        "node a-1 at h in d/e, peers, initial, voting-only, turns 0, shrink false, second true",
    ),
    (
        "node --initial c,a,b --id 0 --turns 18446744073709551615 --dir _ --peers c=-,b=x=y --listen _",
        "node 0 at _ in _, peers c=- b=x=y, initial a b c, voting-only, turns 18446744073709551615, shrink true, second true",
    ),
    (
        "node --voting-only v,c --id c --turns 5 --dir d --peers _ --initial c --listen h",
        "node c at h in d, peers, initial c, voting-only c v, turns 5, shrink true, second true",
    ),
    (
        "node --id c --turns 5 --dir d --voting-only=_ --peers _ --initial c --listen h",
        "node c at h in d, peers, initial c, voting-only, turns 5, shrink true, second true",
    ),
    (
        "node --id c --turns 5 --dir d --peers _ --profile 1 --initial c --listen h",
        "node c at h in d, peers, initial c, voting-only, turns 5, shrink true, second false",
    ),
    (
        "node --profile=2 --id c --turns 5 --dir d --peers _ --initial c --listen h",
        "node c at h in d, peers, initial c, voting-only, turns 5, shrink true, second true",
    ),
    (
        "node --history all --id c --turns all --dir d --peers _ --initial c --listen h",
        "node c at h in d, peers, initial c, voting-only, turns 18446744073709551615, shrink true, second true",
    ),
    (
        "node --id c --turns=5 --dir d --history=acts --peers _ --initial c --listen h",
        "node c at h in d, peers, initial c, voting-only, turns 5, shrink true, second true, acts alone",
    ),
    (
        "node --id c --turns=all --dir d --peers _ --initial c --listen h --history none",
        "node c at h in d, peers, initial c, voting-only, turns 18446744073709551615, shrink true, second true, no history",
    ),
    ("generate --number 7 --steps 0", "generate 7 of 0"),
    (
        "generate --steps=100000 --number=18446744073709551615",
        "generate 18446744073709551615 of 100000",
    ),
    ("generate --steps 8 --number 0", "generate 0 of 8"),
    (
        "trial --program ./zen --dir /tmp/x --port 65533 --turns 18446744073709551615",
        "trial of ./zen in /tmp/x, port 65533, turns 18446744073709551615",
    ),
    (
        "trial --turns=0 --port=1 --dir=d --program=p=q",
        "trial of p=q in d, port 1, turns 0",
    ),
    ("rescue --up c,a", "rescue of a c"),
    ("rescue --up=b", "rescue of b"),
    ("unsafe-bootstrap --id a --dir d", "alone a in d"),
    ("unsafe-bootstrap --dir=d/e --id=a-1", "alone a-1 in d/e"),
    ("detach-cluster --dir a/b", "detach a/b"),
    ("audit", "audit"),
];

#[test]
fn words_are_the_command_that_they_say(rt: HostRuntime) {
    for (line, command) in COMMANDS {
        assert!(rt; is_told(rt.alloc(), line, command) == Ok(true), "{line}");
    }
}

// What stands before a list of ids; and of the command what stands before them and after them.
type Listed = (&'static str, &'static str, &'static str);

const LISTED: &[Listed] = &[
    (
        "node --id a --dir d --listen h --peers _ --turns 5 --initial ",
        "node a at h in d, peers, initial ",
        ", voting-only, turns 5, shrink true, second true",
    ),
    (
        "node --id a --dir d --listen h --peers _ --turns 5 --initial _ --voting-only ",
        "node a at h in d, peers, initial, voting-only ",
        ", turns 5, shrink true, second true",
    ),
    ("rescue --up ", "rescue of ", ""),
];

// Whether the list up to this id makes the words that command.
fn lists(alloc: Global, words: &str, last: u8, want: &str) -> Result<bool, AllocError> {
    let line = with_ids(alloc, words, last, ",", "")?;
    is_told(alloc, line.as_str(), want)
}

// Whether 64 ids are listed, and 65 are no list.
fn lists_64(alloc: Global, row: &Listed) -> Result<bool, AllocError> {
    let (words, head, tail) = *row;
    let want = with_ids(alloc, head, 64, " ", tail)?;
    Ok(lists(alloc, words, 64, want.as_str())? && lists(alloc, words, 65, "usage")?)
}

#[test]
fn a_list_has_up_to_64_ids(rt: HostRuntime) {
    for (at, row) in LISTED.iter().enumerate() {
        assert!(rt; lists_64(rt.alloc(), row) == Ok(true), "row {at}");
    }
}

const OTHER_WORDS: &[&str] = &[
    "",
    "replay",
    "replay --level",
    "replay --level=",
    "replay --level none",
    "replay --level cores",
    "replay --level core --",
    "replay -- --level core",
    "replay --level core --level core",
    "replay --level=core --level=core",
    "replay --level core core",
    "replay -l core",
    "replay --leve core",
    "replay --dir core",
    "--level core replay",
    "help replay",
    "replay --help",
    "replay --version",
    "inspect",
    "inspect --dir -",
    "inspect --dir=-x",
    "inspect --dir=",
    "unsafe-bootstrap",
    "unsafe-bootstrap --dir d",
    "unsafe-bootstrap --id a",
    "unsafe-bootstrap --id A --dir d",
    "unsafe-bootstrap --id a --dir d --dir d",
    "detach-cluster",
    "detach-cluster --dir=",
    "detach-cluster --id a --dir d",
    "audit a",
    "audit --",
    "audit --dir d",
    "audits",
];

fn is_unknown(alloc: Global, line: &str) -> Result<bool, AllocError> {
    let words = words_of(alloc, line)?;
    match program(alloc)?.try_get_matches_from(&words) {
        Ok(_) => Ok(false),
        Err(error) => Ok(error.kind() == ErrorKind::UnknownArgument),
    }
}

const HELPS: &[&str] = &["--help", "replay --help"];

// `read_words` says `Usage` for all that clap refuses. Clap itself prints no help of its own.
#[test]
fn clap_knows_no_help(rt: HostRuntime) {
    for line in HELPS {
        assert!(rt; is_unknown(rt.alloc(), line) == Ok(true), "{line}");
    }
}

const NODES: &[&str] = &[
    "node --dir d --listen h --peers _ --initial _ --turns 5",
    "node --id a --listen h --peers _ --initial _ --turns 5",
    "node --id a --dir d --peers _ --initial _ --turns 5",
    "node --id a --dir d --listen h --initial _ --turns 5",
    "node --id a --dir d --listen h --peers _ --turns 5",
    "node --id a --dir d --listen h --peers _ --initial _",
    "node --id a --dir d --listen h --peers _ --initial _ --turns 5 --turns 5",
    "node --id a --dir d --listen h --peers _ --initial _ --turns 5 --no-shrink --no-shrink",
    "node --id a --dir d --listen h --peers _ --initial _ --turns 5 --voting-only a --voting-only a",
    "node --id a --dir d --listen h --peers _ --initial _ --turns 5 --voting-only",
    "node --id a --dir d --listen h --peers _ --initial _ --turns 5 --profile 2 --profile 2",
    "node --id a --dir d --listen h --peers _ --initial _ --turns 5 --profile",
    "node --id a --dir d --listen h --peers _ --initial _ --turns 5 --history all --history all",
    "node --id a --dir d --listen h --peers _ --initial _ --turns 5 --history",
    "node --id a --dir d --listen h --peers _ --initial _ --turns 5 --no-shrink=true",
    "node --id a --dir d --listen h --peers _ --initial _ --turns 5 --level core",
    "node --id a --dir d --listen h --peers _ --initial _ --turns 5 --",
    "node --id a --dir d --listen h --peers _ --initial _ --turns 5 a",
    "node --id a --dir d --listen h --peers --initial _ --turns 5",
];

const VALUES: &[&str] = &[
    "node --id a --dir d --listen h --peers _ --initial _ --turns 5 --profile 0",
    "node --id a --dir d --listen h --peers _ --initial _ --turns 5 --profile 3",
    "node --id a --dir d --listen h --peers _ --initial _ --turns 5 --profile 02",
    "node --id a --dir d --listen h --peers _ --initial _ --turns 5 --profile=",
    "node --id a --dir d --listen h --peers _ --initial _ --turns 5 --history act",
    "node --id a --dir d --listen h --peers _ --initial _ --turns 5 --history=",
    "node --id a --dir d --listen h --peers _ --initial _ --turns 5 --history ALL",
    "node --id a --dir d --listen h --peers _ --initial _ --turns All",
    "node --id a --dir d --listen h --peers _ --initial _ --turns all,5",
    "node --id A --dir d --listen h --peers _ --initial _ --turns 5",
    "node --id=-a --dir d --listen h --peers _ --initial _ --turns 5",
    "node --id= --dir d --listen h --peers _ --initial _ --turns 5",
    "node --id aaaaaaaaaaaaaaaaaaaaaaaaaaaaaaaaa --dir d --listen h --peers _ --initial _ --turns 5",
    "node --id a --dir= --listen h --peers _ --initial _ --turns 5",
    "node --id a --dir d --listen= --peers _ --initial _ --turns 5",
    "node --id a --dir d --listen h,i --peers _ --initial _ --turns 5",
    "node --id a --dir d --listen h --peers b --initial _ --turns 5",
    "node --id a --dir d --listen h --peers b= --initial _ --turns 5",
    "node --id a --dir d --listen h --peers =h --initial _ --turns 5",
    "node --id a --dir d --listen h --peers b=h, --initial _ --turns 5",
    "node --id a --dir d --listen h --peers b=h,b=i --initial _ --turns 5",
    "node --id a --dir d --listen h --peers _,b=h --initial _ --turns 5",
    "node --id a --dir d --listen h --peers=-=h --initial _ --turns 5",
    "node --id a --dir d --listen h --peers _ --initial a,a --turns 5",
    "node --id a --dir d --listen h --peers _ --initial a,,b --turns 5",
    "node --id a --dir d --listen h --peers _ --initial a,_ --turns 5",
    "node --id a --dir d --listen h --peers _ --initial=-a --turns 5",
    "node --id a --dir d --listen h --peers _ --initial= --turns 5",
    "node --id a --dir d --listen h --peers _ --initial _ --voting-only= --turns 5",
    "node --id a --dir d --listen h --peers _ --initial _ --voting-only a,a --turns 5",
    "node --id a --dir d --listen h --peers _ --initial _ --voting-only A --turns 5",
    "node --id a --dir d --listen h --peers _ --initial _ --voting-only=-a --turns 5",
    "node --id a --dir d --listen h --peers _ --initial _ --turns +5",
    "node --id a --dir d --listen h --peers _ --initial _ --turns=-5",
    "node --id a --dir d --listen h --peers _ --initial _ --turns 0x5",
    "node --id a --dir d --listen h --peers _ --initial _ --turns 05",
    "node --id a --dir d --listen h --peers _ --initial _ --turns 00",
    "node --id a --dir d --listen h --peers _ --initial _ --turns=",
    "node --id a --dir d --listen h --peers _ --initial _ --turns 18446744073709551616",
];

const GENERATIONS: &[&str] = &[
    "generate",
    "generate --number 7",
    "generate --steps 7",
    "generate --number 7 --steps 100001",
    "generate --number 18446744073709551616 --steps 7",
    "generate --number 7 --steps 18446744073709551616",
    "generate --number +7 --steps 7",
    "generate --number 007 --steps 7",
    "generate --number 7 --steps 07",
    "generate --number 7 --steps=-7",
    "generate --number= --steps 7",
    "generate --number 7 --steps 7 --steps 7",
    "generate --number 7 --steps 7 --level core",
    "generate 7 7",
];

const TRIALS: &[&str] = &[
    "trial",
    "trial --dir d --port 1 --turns 1",
    "trial --program p --port 1 --turns 1",
    "trial --program p --dir d --turns 1",
    "trial --program p --dir d --port 1",
    "trial --program p --dir d --port 0 --turns 1",
    "trial --program p --dir d --port 65534 --turns 1",
    "trial --program p --dir d --port 18446744073709551616 --turns 1",
    "trial --program p --dir d --port +1 --turns 1",
    "trial --program p --dir d --port 07101 --turns 1",
    "trial --program p --dir d --port 1 --turns=-1",
    "trial --program p --dir d --port 1 --turns 18446744073709551616",
    "trial --program p --dir d --port 1 --turns all",
    "trial --program= --dir d --port 1 --turns 1",
    "trial --program=-p --dir d --port 1 --turns 1",
    "trial --program p --dir=-d --port 1 --turns 1",
    "trial --program p --dir d --port 1 --port 1 --turns 1",
    "trial --program p --dir d --port 1 --turns 1 --no-shrink",
    "trial --program p --dir d --port 1 --turns 1 --",
];

const RESCUES: &[&str] = &[
    "rescue",
    "rescue a",
    "rescue --up",
    "rescue --up _",
    "rescue --up=",
    "rescue --up a,",
    "rescue --up a,a",
    "rescue --up a,B",
    "rescue --up=-a",
    "rescue --up a b",
    "rescue --up a --up b",
    "rescue --up a --level core",
    "rescue --up a --",
];

const REFUSED: &[(&str, &[&str])] = &[
    ("other_words_are_a_usage", OTHER_WORDS),
    ("a_node_needs_each_option_once", NODES),
    ("a_node_needs_values_of_their_kinds", VALUES),
    (
        "a_generated_schedule_has_a_number_and_few_steps",
        GENERATIONS,
    ),
    ("a_trial_needs_two_ports_above_its_first", TRIALS),
    ("a_rescue_names_a_node_that_is_up", RESCUES),
];

#[test]
fn words_that_are_no_command_are_a_usage(rt: HostRuntime) {
    for (name, lines) in REFUSED {
        for line in *lines {
            assert!(rt;
                is_told(rt.alloc(), line, "usage") == Ok(true),
                "{name}: {line}"
            );
        }
    }
}
