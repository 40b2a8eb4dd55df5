//! What holds of each life that follows the policy. The calls do nothing: what they promise is proved.
ghost use Rattle.policy_model.specs.Laws.{LawEventMoves, LawLifeIsLocal, LawFirstProfile, LawNoVotingOnly, LawOpeningMoves};
ghost use Rattle.policy_model.specs.Bounds.{EventHoldsSet, LawAnswersFew, LawEventIsShort, LawOpenedIsSmall, LawSendsFew, LawStruckIsShort};
ghost use Rattle.policy_model.specs.Fitting.{EventHoldsSettings, LawOpenedIsFit, LawStaysFit};

use crate::events::Event;
use wire_frames::WireMessage;

/// Acts that follow the policy are right by themselves: each outcome is the reply that the node's acts so far call
/// for, or a fault of the disk or a crash where the act would be taken; and each opening finds what was kept.
pub fn law_life_is_local()
    ensures { LawLifeIsLocal }
{}

/// What a node is after an event, looked up among all that it saw and did, is what the event made of what it was.
pub fn law_event_moves()
    ensures { LawEventMoves }
{}

/// What a node is after an opening is determined by the record that it found.
pub fn law_opening_moves()
    ensures { LawOpeningMoves }
{}

/// Where the settings list no voting-only node, the rules of elections, joins and hand-overs are those of a policy that
/// knows no such nodes.
pub fn law_no_voting_only()
    ensures { LawNoVotingOnly }
{}

/// Where the settings name the first profile, all rules are those of a policy that knows no second one.
pub fn law_first_profile()
    ensures { LawFirstProfile }
{}

/// A node that is within the limits and to which a frame within the limits comes, or anything else, sends frames
/// within the limits and stays so: its term, its accepted state, its applied id, its round and its queue.
pub fn law_stays_fit()
    ensures { LawStaysFit }
{}

/// A node that was just opened is within the limits where the record is that it found.
pub fn law_opened_is_fit()
    ensures { LawOpenedIsFit }
{}

/// Settings in memory ascend by key, also those of a state that is published.
pub fn law_event_holds_settings(event: &Event)
    ensures { EventHoldsSettings event.now }
{
    if let Event::Frame(frame) = event {
        if let WireMessage::Publish(state) = &frame.frame().message {
            // The contract of this call is the law.
            let _ = state.value.settings.texts();
        }
    }
}

/// At an event a node does three acts at most, and shows six deeds at most: acts and changes of mode.
pub fn law_event_is_short()
    ensures { LawEventIsShort }
{}

/// So it does where an act does not come to its end.
pub fn law_struck_is_short()
    ensures { LawStruckIsShort }
{}

/// Where no more requests wait than may, no more replies are sent at an event, and no more wait after it.
pub fn law_answers_few()
    ensures { LawAnswersFew }
{}

/// At an event a node sends 190 frames at most: at a tick, one that is a quorum alone, asks 63 peers for peers and for a
/// pre-vote and starts 64 joins; at a frame 65, at a line 64, and at the start none. Its sets are as small afterwards.
pub fn law_sends_few()
    ensures { LawSendsFew }
{}

/// A node that was just opened has sets of these sizes where its record has.
pub fn law_opened_is_small()
    ensures { LawOpenedIsSmall }
{}

/// The members of a state in memory are 64 at most, also those of a state that is published.
pub fn law_event_holds_set(event: &Event)
    ensures { EventHoldsSet event.now }
{
    if let Event::Frame(frame) = event {
        if let WireMessage::Publish(state) = &frame.frame().message {
            // The contract of this call is the law.
            let _ = state.value.members.len();
        }
    }
}
