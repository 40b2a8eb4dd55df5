//! `Tally`: ids that are counted, as a word over a roster of their own.
ghost use Rattle.std.specs.Prelude.{◌≡◌, [], length, IsTrue};
ghost use Rattle.voting_config.specs.Ids.{has, has_room, with_id, without_id};
ghost use Rattle.voting_config.specs.Rosters.{marked};

use crate::node_id::NodeId;
use crate::node_set::NodeSet;
use crate::roster::{Roster, with_bit, without_bit};
use std::marker::Model;

/// Ids that are counted, at most [`MAX_IDS`](crate::MAX_IDS). Contracts see the ascending list of them.
///
/// Each is a bit of one word, at the place that it has on a roster. The roster keeps an id that is taken out, so one that is counted again
/// has its place already.
#[derive(Drop)]
pub struct Tally {
    roster: Roster,
    word: u64,
}

impl Model for Tally {
    ghost use Rattle.std.specs.Prelude.{List};
    ghost use Rattle.voting_config.specs.Ids.{Id};
    ghost use Rattle.voting_config.specs.Rosters.{IsTally, marked};
    ghost use Rattle.std.specs.Coded.{coded_list, coded_ℕ};

    ghost Value = { List Id };

    ghost coded = { coded_list (coded_list coded_ℕ) };

    ghost view = { λ t. marked t.roster t.word };

    ghost invariant = { λ t. IsTally t.roster t.word };
}

impl Tally {
    /// No ids.
    pub fn new() -> Tally
        ensures { result ≡ [] }
    {
        Tally {
            roster: Roster::new(),
            word: 0,
        }
    }

    /// These ids.
    pub fn of(ids: &NodeSet) -> Tally
        ensures { result ≡ ids.now }
    {
        // For the proof alone: the ids of a set ascend.
        let _ = ids.as_slice();
        let roster = Roster::of(ids);
        let word = roster.mask(ids);
        Tally { roster, word }
    }

    /// Counts an id, once.
    pub fn add(&mut self, id: NodeId)
        requires { IsTrue (has_room self.old id) }
        ensures { self.new ≡ with_id id self.old }
    {
        match self.roster.admit(id) {
            Ok(place) => self.word = with_bit(self.word, place),
            Err(_) => self.add_anew(id),
        }
    }

    // Counts an id over a new roster, that of the ids with this one: the old one is full, also of ids that were taken out.
    fn add_anew(&mut self, id: NodeId)
        requires { IsTrue (has_room self.old id) }
        ensures { self.new ≡ with_id id self.old }
    {
        let mut ids = self.sources();
        ids.put(id);
        *self = Tally::of(&ids);
    }

    /// Takes an id out.
    pub fn remove(&mut self, id: NodeId)
        ensures { self.new ≡ without_id id self.old }
    {
        match self.roster.place(id) {
            None => {}
            Some(place) => self.word = without_bit(self.word, place),
        }
    }

    /// Whether the id is counted.
    pub fn contains(&self, id: NodeId) -> bool
        ensures { result ≡ has id self.now }
    {
        self.roster.has_mark(self.word, id)
    }

    /// How many ids there are.
    pub fn len(&self) -> usize
        ensures { result ≡ length self.now }
    {
        self.word.count_ones() as usize
    }

    /// The ids, as a set.
    pub fn sources(&self) -> NodeSet
        ensures { result ≡ self.now }
    {
        self.roster.marked(self.word)
    }

    /// A roster, and a word over it: the ids are the roster's at the bits of the word.
    pub fn marks(&self) -> (&Roster, u64)
        ensures { marked result.0.now result.1 ≡ self.now }
    {
        (&self.roster, self.word)
    }
}
