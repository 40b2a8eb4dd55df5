//! The three nodes of a trial, and the words that run each.
ghost use Rattle.std.specs.Prelude.{◌≡◌, [], ◌∷◌, ◌++◌, map, string_bytes, decimal, IfOk, OnOk};
ghost use Rattle.node_trial.specs.Nodes.{told_trial, name_of, others_of, port_of, address, peer, folder_of, peers_of, text_of_word, words_of};

use itoa::Buffer;
use std::alloc::{AllocError, Global};

/// What is tried.
#[derive(Clone, Copy)]
pub struct Trial<'a> {
    /// The program that each node runs.
    pub program: &'a str,
    /// The folder in which each node has its own.
    pub dir: &'a str,
    /// The port of the first node. Those of the others come next.
    pub port: u16,
    /// After how many inputs a node ends.
    pub turns: u64,
}

/// A node of a trial.
#[derive(Clone, Copy, Debug, PartialEq, Eq)]
pub enum TrialNode {
    A,
    B,
    C,
}

impl TrialNode {
    /// Its id.
    pub fn name(self) -> &'static str
        ensures { result.now ≡ name_of self }
    {
        match self {
            TrialNode::A => "a",
            TrialNode::B => "b",
            TrialNode::C => "c",
        }
    }

    fn others(self) -> (TrialNode, TrialNode)
        ensures { result ≡ others_of self }
    {
        match self {
            TrialNode::A => (TrialNode::B, TrialNode::C),
            TrialNode::B => (TrialNode::A, TrialNode::C),
            TrialNode::C => (TrialNode::A, TrialNode::B),
        }
    }

    // Its port, where the first node has this one.
    fn port(self, first: u16) -> u64
        ensures { result ≡ port_of first self }
    {
        match self {
            TrialNode::A => first as u64,
            TrialNode::B => first as u64 + 1,
            TrialNode::C => first as u64 + 2,
        }
    }
}

fn write_number(text: &mut String, number: u64) -> Result<(), AllocError>
    ensures { OnOk result (string_bytes text.new ≡ string_bytes text.old ++ decimal number) }
{
    let mut buffer = Buffer::new();
    text.push_str(buffer.format(number))?;
    Ok(())
}

fn write_address(text: &mut String, first: u16, node: TrialNode) -> Result<(), AllocError>
    ensures { OnOk result (string_bytes text.new ≡ string_bytes text.old ++ address first node) }
{
    text.push_str("127.0.0.1:")?;
    write_number(text, node.port(first))
}

fn write_peer(text: &mut String, first: u16, node: TrialNode) -> Result<(), AllocError>
    ensures { OnOk result (string_bytes text.new ≡ string_bytes text.old ++ peer first node) }
{
    text.push_str(node.name())?;
    text.push_str("=")?;
    write_address(text, first, node)
}

fn number(alloc: Global, number: u64) -> Result<String, AllocError>
    ensures { IfOk result (λ text. string_bytes text ≡ decimal number) }
{
    let mut buffer = Buffer::new();
    String::from_str(alloc, buffer.format(number))
}

// The address at which a node listens.
fn listen(alloc: Global, first: u16, node: TrialNode) -> Result<String, AllocError>
    ensures { IfOk result (λ text. string_bytes text ≡ address first node) }
{
    let mut text = String::new(alloc);
    write_address(&mut text, first, node)?;
    Ok(text)
}

fn peers(alloc: Global, first: u16, node: TrialNode) -> Result<String, AllocError>
    ensures { IfOk result (λ text. string_bytes text ≡ peers_of first node) }
{
    let (one, other) = node.others();
    let mut text = String::new(alloc);
    write_peer(&mut text, first, one)?;
    text.push_str(",")?;
    write_peer(&mut text, first, other)?;
    Ok(text)
}

fn folder(alloc: Global, dir: &str, node: TrialNode) -> Result<String, AllocError>
    ensures { IfOk result (λ text. string_bytes text ≡ folder_of dir.now node) }
{
    let mut text = String::from_str(alloc, dir)?;
    text.push_str("/")?;
    text.push_str(node.name())?;
    Ok(text)
}

// A word that runs a node.
#[derive(Clone, Copy)]
enum Word {
    // The same for each node.
    Fixed(&'static str),
    Id,
    Folder,
    Address,
    Peers,
    Turns,
}

// The words that run a node: each option is followed by its value.
const WORDS: [Word; 13] = [
    Word::Fixed("node"),
    Word::Fixed("--id"),
    Word::Id,
    Word::Fixed("--dir"),
    Word::Folder,
    Word::Fixed("--listen"),
    Word::Address,
    Word::Fixed("--peers"),
    Word::Peers,
    Word::Fixed("--initial"),
    Word::Fixed("a,b,c"),
    Word::Fixed("--turns"),
    Word::Turns,
];

fn word_text(
    alloc: Global,
    trial: &Trial<'_>,
    node: TrialNode,
    word: Word,
) -> Result<String, AllocError>
    ensures { IfOk result (λ text. string_bytes text ≡ text_of_word (told_trial trial.now) node word) }
{
    match word {
        Word::Fixed(text) => String::from_str(alloc, text),
        Word::Id => String::from_str(alloc, node.name()),
        Word::Folder => folder(alloc, trial.dir, node),
        Word::Address => listen(alloc, trial.port, node),
        Word::Peers => peers(alloc, trial.port, node),
        Word::Turns => number(alloc, trial.turns),
    }
}

fn word_texts(
    alloc: Global,
    trial: &Trial<'_>,
    node: TrialNode,
    words: &[Word],
) -> Result<Vec<String>, AllocError>
    ensures { IfOk result (λ texts. map string_bytes texts.items ≡ map (text_of_word (told_trial trial.now) node) words.now) }
{
    let mut texts = Vec::new(alloc);
    for word in words {
        texts.push(word_text(alloc, trial, node, *word)?)?;
    }
    Ok(texts)
}

/// The words that run a node.
pub fn node_words(
    alloc: Global,
    trial: &Trial<'_>,
    node: TrialNode,
) -> Result<Vec<String>, AllocError>
    ensures { IfOk result (λ words. map string_bytes words.items ≡ words_of (told_trial trial.now) node) }
{
    word_texts(alloc, trial, node, &WORDS)
}
