//! Passages of traces that stand in several rows, a line an element. A message has the number that it gets in those rows.

/// Lines of a trace, or the two lines of a header.
pub type Passage = &'static [&'static str];

/// Node a, the only voter.
pub const ONE: Passage = &["nodes a", "initial a"];

/// Nodes a and b; a is the only voter of the first configuration.
pub const TWO_VOTER_A: Passage = &["nodes a,b", "initial a"];

/// Nodes a and b; b is the only voter of the first configuration.
pub const TWO_VOTER_B: Passage = &["nodes a,b", "initial b"];

/// Nodes a and b, both voters.
pub const TWO: Passage = &["nodes a,b", "initial a,b"];

/// Nodes a, b and c, all voters.
pub const THREE: Passage = &["nodes a,b,c", "initial a,b,c"];

/// Node a gets the first configuration, whose voter it is.
pub const A_BOOTS: Passage = &["> boot a", "act a ok boot a"];

/// Node a gets the first configuration, whose voter is b.
pub const A_BOOTS_VOTER_B: Passage = &["> boot a", "act a ok boot b"];

/// Nodes a, b and c get the first configuration.
pub const THREE_BOOT: Passage = &[
    "> boot a",
    "act a ok boot a,b,c",
    "> boot b",
    "act b ok boot a,b,c",
    "> boot c",
    "act c ok boot a,b,c",
];

/// Node a joins its own election in term 1: message 1.
pub const A_JOINS: Passage = &[
    "> startjoin a a 1",
    "act a ok startjoin a 1",
    "m1 a->a join 1 0/0",
];

/// Node b joins it: message 2.
pub const B_JOINS: Passage = &[
    "> startjoin b a 1",
    "act b ok startjoin a 1",
    "m2 b->a join 1 0/0",
];

/// Node b joins the election of a in term 1, and then a itself.
pub const B_THEN_A_JOIN: Passage = &[
    "> startjoin b a 1",
    "act b ok startjoin a 1",
    "m1 b->a join 1 0/0",
    "> startjoin a a 1",
    "act a ok startjoin a 1",
    "m2 a->a join 1 0/0",
];

/// Nodes a, b and c join the election of a in term 1: messages 1 to 3.
pub const THREE_JOIN: Passage = &[
    "> startjoin a a 1",
    "act a ok startjoin a 1",
    "m1 a->a join 1 0/0",
    "> startjoin b a 1",
    "act b ok startjoin a 1",
    "m2 b->a join 1 0/0",
    "> startjoin c a 1",
    "act c ok startjoin a 1",
    "m3 c->a join 1 0/0",
];

/// Node a counts its own join, and wins by it.
pub const A_WINS_BY_ITSELF: Passage = &["> deliver a 1", "act a ok join a a 1 0/0", "won a 1"];

/// Node a counts its own join, and wins by that of b.
pub const A_WINS_OF_THREE: Passage = &[
    "> deliver a 1",
    "act a ok join a a 1 0/0",
    "> deliver a 2",
    "act a ok join b a 1 0/0",
    "won a 1",
];

/// Node a counts its own join, wins by it, and counts that of b.
pub const A_WINS_AND_COUNTS_B: Passage = &[
    "> deliver a 1",
    "act a ok join a a 1 0/0",
    "won a 1",
    "> deliver a 2",
    "act a ok join b a 1 0/0",
];

/// Node a counts the join of b, and wins by its own.
pub const A_WINS_AFTER_B: Passage = &[
    "> deliver a 1",
    "act a ok join b a 1 0/0",
    "> deliver a 2",
    "act a ok join a a 1 0/0",
    "won a 1",
];

/// Node a wins by the join of b.
pub const A_WINS_BY_B: Passage = &["> deliver a 2", "act a ok join b a 1 0/0", "won a 1"];

/// Node a counts the join of b, which changes nothing.
pub const A_COUNTS_B: Passage = &["> deliver a 2", "act a ok join b a 1 0/0"];

/// Node a crashes in term 1, and nothing is lost.
pub const A_CRASHES_AND_RESTARTS: Passage = &[
    "> crash a all",
    "crashed a",
    "> restart a",
    "record a 1 0/0 a a",
];

/// Node a publishes x as version 1: message 2.
pub const A_PUBLISHES_X: Passage = &[
    "> value a 1 x a",
    r#"act a ok value 1 a {"exclusions":[],"master":null,"members":[],"settings":{"v":"x"}}"#,
    r#"m2 a->* publish {"committed":["a"],"config":["a"],"parent":{"term":0,"version":0},"term":1,"value":{"exclusions":[],"master":null,"members":[],"settings":{"v":"x"}},"version":1}"#,
];

/// Node a accepts it: message 3.
pub const A_ACCEPTS_X: Passage = &[
    "> deliver a 2",
    r#"act a ok publish a {"committed":["a"],"config":["a"],"parent":{"term":0,"version":0},"term":1,"value":{"exclusions":[],"master":null,"members":[],"settings":{"v":"x"}},"version":1}"#,
    "m3 a->a response 1/1",
];

/// Node a counts its own response, and commits x: message 4.
pub const A_COMMITS_X: Passage = &[
    "> deliver a 3",
    "act a ok response a a 1/1",
    r#"committed {"committed":["a"],"config":["a"],"parent":{"term":0,"version":0},"term":1,"value":{"exclusions":[],"master":null,"members":[],"settings":{"v":"x"}},"version":1}"#,
    "m4 a->* commit 1/1",
];

/// Node a publishes y as version 2: message 4.
pub const A_PUBLISHES_Y: Passage = &[
    "> value a 2 y a",
    r#"act a ok value 2 a {"exclusions":[],"master":null,"members":[],"settings":{"v":"y"}}"#,
    r#"m4 a->* publish {"committed":["a"],"config":["a"],"parent":{"term":1,"version":1},"term":1,"value":{"exclusions":[],"master":null,"members":[],"settings":{"v":"y"}},"version":2}"#,
];

/// Node a publishes x as version 1 for voters a, b and c: message 4.
pub const A_PUBLISHES_X_TO_THREE: Passage = &[
    "> value a 1 x a,b,c",
    r#"act a ok value 1 a,b,c {"exclusions":[],"master":null,"members":[],"settings":{"v":"x"}}"#,
    r#"m4 a->* publish {"committed":["a","b","c"],"config":["a","b","c"],"parent":{"term":0,"version":0},"term":1,"value":{"exclusions":[],"master":null,"members":[],"settings":{"v":"x"}},"version":1}"#,
];

/// Node a publishes x as version 1, with b as the only voter from then on: message 3.
pub const A_PUBLISHES_VOTER_B: Passage = &[
    "> value a 1 x b",
    r#"act a ok value 1 b {"exclusions":[],"master":null,"members":[],"settings":{"v":"x"}}"#,
    r#"m3 a->* publish {"committed":["a"],"config":["b"],"parent":{"term":0,"version":0},"term":1,"value":{"exclusions":[],"master":null,"members":[],"settings":{"v":"x"}},"version":1}"#,
];

/// Node b accepts it: message 4.
pub const B_ACCEPTS_VOTER_B: Passage = &[
    "> deliver b 3",
    r#"act b ok publish a {"committed":["a"],"config":["b"],"parent":{"term":0,"version":0},"term":1,"value":{"exclusions":[],"master":null,"members":[],"settings":{"v":"x"}},"version":1}"#,
    "m4 b->a response 1/1",
];

/// Nodes a and b accept it, messages 4 and 5, and a counts its own response.
pub const BOTH_ACCEPT_VOTER_B: Passage = &[
    "> deliver a 3",
    r#"act a ok publish a {"committed":["a"],"config":["b"],"parent":{"term":0,"version":0},"term":1,"value":{"exclusions":[],"master":null,"members":[],"settings":{"v":"x"}},"version":1}"#,
    "m4 a->a response 1/1",
    "> deliver b 3",
    r#"act b ok publish a {"committed":["a"],"config":["b"],"parent":{"term":0,"version":0},"term":1,"value":{"exclusions":[],"master":null,"members":[],"settings":{"v":"x"}},"version":1}"#,
    "m5 b->a response 1/1",
    "> deliver a 4",
    "act a ok response a a 1/1",
];

/// Node a counts the response of b.
pub const A_COUNTS_RESPONSE_OF_B: Passage = &["> deliver a 4", "act a ok response b a 1/1"];

/// Node a publishes x as version 1 where b is the only voter: message 3.
pub const A_PUBLISHES_X_TO_B: Passage = &[
    "> value a 1 x b",
    r#"act a ok value 1 b {"exclusions":[],"master":null,"members":[],"settings":{"v":"x"}}"#,
    r#"m3 a->* publish {"committed":["b"],"config":["b"],"parent":{"term":0,"version":0},"term":1,"value":{"exclusions":[],"master":null,"members":[],"settings":{"v":"x"}},"version":1}"#,
];

/// A whole node, alone: its clock runs down, and it elects itself.
pub const A_ELECTS_ITSELF: Passage = &[
    "> tick a 0 7",
    "act a ok boot a",
    "> tick a 8 7",
    "m1 a->a startjoin a 1",
    "> deliver a 1",
    "act a ok startjoin a 1",
    "m2 a->a join 1 0/0",
    "> deliver a 2",
    "act a ok join a a 1 0/0",
    "won a 1",
    "mode a leader 1",
];

/// It publishes its first state, and accepts that: messages 3 and 4.
pub const A_PUBLISHES_FIRST_STATE: Passage = &[
    r#"act a ok value 1 a {"exclusions":[],"master":"a","members":["a"],"settings":{}}"#,
    r#"m3 a->a publish {"committed":["a"],"config":["a"],"parent":{"term":0,"version":0},"term":1,"value":{"exclusions":[],"master":"a","members":["a"],"settings":{}},"version":1}"#,
    "> deliver a 3",
    r#"act a ok publish a {"committed":["a"],"config":["a"],"parent":{"term":0,"version":0},"term":1,"value":{"exclusions":[],"master":"a","members":["a"],"settings":{}},"version":1}"#,
    "m4 a->a response 1/1",
];

/// It commits that state: message 5.
pub const A_COMMITS_FIRST_STATE: Passage = &[
    "> deliver a 4",
    "act a ok response a a 1/1",
    r#"committed {"committed":["a"],"config":["a"],"parent":{"term":0,"version":0},"term":1,"value":{"exclusions":[],"master":"a","members":["a"],"settings":{}},"version":1}"#,
    "m5 a->a commit 1/1",
    "> deliver a 5",
    "act a ok commit a 1/1",
];

/// Two whole nodes: a looks for b, its clock runs down, and it asks both to join: messages 1 to 3.
pub const A_STANDS: Passage = &[
    "> tick a 0 7",
    "act a ok boot a",
    "m1 a->b peersask b",
    "> tick a 8 7",
    "m2 a->a startjoin a 1",
    "m3 a->b startjoin a 1",
];

/// Node a joins its own election: message 4.
pub const A_JOINS_ITSELF: Passage = &[
    "> deliver a 2",
    "act a ok startjoin a 1",
    "m4 a->a join 1 0/0",
];

/// Node b joins it, a wins by its own join and publishes its first state: messages 5 and 6.
pub const B_JOINS_AND_A_LEADS: Passage = &[
    "> deliver b 3",
    "act b ok startjoin a 1",
    "m5 b->a join 1 0/0",
    "> deliver a 4",
    "act a ok join a a 1 0/0",
    "won a 1",
    "mode a leader 1",
    r#"act a ok value 1 a {"exclusions":[],"master":"a","members":["a"],"settings":{}}"#,
    r#"m6 a->a publish {"committed":["a"],"config":["a"],"parent":{"term":0,"version":0},"term":1,"value":{"exclusions":[],"master":"a","members":["a"],"settings":{}},"version":1}"#,
];

/// Node a counts the join of b, and commits its first state: messages 7 and 8.
pub const A_COMMITS_FIRST_STATE_OF_TWO: Passage = &[
    "> deliver a 5",
    "act a ok join b a 1 0/0",
    "> deliver a 6",
    r#"act a ok publish a {"committed":["a"],"config":["a"],"parent":{"term":0,"version":0},"term":1,"value":{"exclusions":[],"master":"a","members":["a"],"settings":{}},"version":1}"#,
    "m7 a->a response 1/1",
    "> deliver a 7",
    "act a ok response a a 1/1",
    r#"committed {"committed":["a"],"config":["a"],"parent":{"term":0,"version":0},"term":1,"value":{"exclusions":[],"master":"a","members":["a"],"settings":{}},"version":1}"#,
    "m8 a->a commit 1/1",
    "> deliver a 8",
    "act a ok commit a 1/1",
];

/// Node a publishes a state of which b is a member: messages 9 and 10.
pub const A_ADDS_B: Passage = &[
    r#"act a ok value 2 a {"exclusions":[],"master":"a","members":["a","b"],"settings":{}}"#,
    r#"m9 a->a publish {"committed":["a"],"config":["a"],"parent":{"term":1,"version":1},"term":1,"value":{"exclusions":[],"master":"a","members":["a","b"],"settings":{}},"version":2}"#,
    r#"m10 a->b publish {"committed":["a"],"config":["a"],"parent":{"term":1,"version":1},"term":1,"value":{"exclusions":[],"master":"a","members":["a","b"],"settings":{}},"version":2}"#,
];

/// Nodes a, b and c whole: a leads, b and c follow, and all have taken the commit of 1/2. Frames 1 to 29; a's moment is 20, that of b
/// and c is 0.
pub const A_LEADS_THREE: Passage = &[
    "> tick a 0 7",
    "...",
    "> deliver b 1",
    "...",
    "> deliver c 2",
    "...",
    "> deliver a 3",
    "> deliver a 4",
    "> tick a 10 7",
    "...",
    "> tick a 20 7",
    "...",
    "> deliver b 5",
    "...",
    "> deliver c 6",
    "...",
    "> deliver a 7",
    "...",
    "> deliver a 8",
    "> deliver a 9",
    "...",
    "> deliver b 10",
    "...",
    "> deliver c 11",
    "...",
    "> deliver a 12",
    "...",
    "> deliver a 13",
    "...",
    "> deliver a 14",
    "...",
    "> deliver a 15",
    "...",
    "> deliver b 16",
    "...",
    "> deliver a 17",
    "...",
    "> deliver a 18",
    "...",
    "> deliver a 19",
    "...",
    "> deliver b 20",
    "...",
    "> deliver a 21",
    "...",
    "> deliver b 22",
    "...",
    "> deliver c 23",
    "...",
    "> deliver a 24",
    "...",
    "> deliver a 25",
    "...",
    "> deliver a 26",
    "...",
    "> deliver a 27",
    "...",
    "> deliver b 28",
    "...",
    "> deliver c 29",
    "...",
];

/// Nodes a, b and c, all voters, by the second profile.
pub const THREE_BY_THE_SECOND: Passage = &["nodes a,b,c", "initial a,b,c", "profile 2"];

/// Nodes a, b and c whole, by either profile: they find each other, and a asks for pre-votes. Frames 1 to 14.
pub const A_ASKS_FOR_PRE_VOTES: Passage = &[
    "> tick a 0 0",
    "...",
    "> tick b 0 0",
    "...",
    "> tick c 0 0",
    "...",
    "> deliver b 1",
    "...",
    "> deliver a 7",
    "> deliver c 2",
    "...",
    "> deliver a 8",
    "> deliver a 3",
    "...",
    "> deliver b 9",
    "> deliver c 4",
    "...",
    "> deliver b 10",
    "> deliver a 5",
    "...",
    "> deliver c 11",
    "> deliver b 6",
    "...",
    "> deliver c 12",
    "> tick a 1 0",
    "...",
    "> tick b 1 0",
    "...",
    "> tick c 1 0",
    "...",
    "> tick a 10 0",
    "...",
];

// All three vote for a, and its first state is committed, which c has not been sent.
const A_LEADS_AND_B_FOLLOWS: Passage = &[
    "> deliver b 13",
    "...",
    "> deliver a 15",
    "...",
    "> deliver a 16",
    "...",
    "> deliver b 17",
    "...",
    "> deliver c 18",
    "...",
    "> deliver a 19",
    "...",
    "> deliver a 20",
    "...",
    "> deliver a 21",
    "...",
    "> deliver a 22",
    "...",
    "> deliver b 23",
    "...",
    "> deliver a 24",
    "...",
    "> deliver a 25",
    "...",
    "> deliver b 27",
    "...",
    "> deliver a 26",
    "...",
    "> deliver a 28",
    "...",
    "> deliver b 29",
    "...",
];

// The next state is sent to c, and committed.
const C_FOLLOWS: Passage = &[
    "> deliver c 30",
    "...",
    "> deliver a 31",
    "...",
    "> deliver a 32",
    "...",
    "> deliver a 33",
    "...",
    "> deliver b 35",
    "...",
    "> deliver c 36",
    "...",
    "> deliver a 34",
    "...",
];

/// Nodes a, b and c whole, by either profile: a leads, b and c follow, and all have taken the commit of 1/2. Frames 1 to 36; a's moment is 10, that of b
/// and c is 1.
pub const ALL_FOLLOW_A: &[Passage] = &[A_ASKS_FOR_PRE_VOTES, A_LEADS_AND_B_FOLLOWS, C_FOLLOWS];
