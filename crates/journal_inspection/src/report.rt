//! The seven lines that show a journal, and the line that says why there is none.
ghost use Rattle.std.specs.Prelude.{◌≡◌, ◌++◌, OnOk, IfOk, codes, decimal};
ghost use Rattle.cluster_state.specs.States.{IsFit};
ghost use Rattle.state_journal.specs.declared.why.Fault.TheVariants as faults;
ghost use Rattle.journal_inspection.specs.Report.{digest_text, accepted_lines, state_lines, report, body_fault_text, fault_text, why_text, not_a_journal};

use cluster_state::{ClusterState, Kept, encode_state, to_json};
use sha2::{Digest, Sha256};
use state_journal::{BodyFault, Fault, Why};
use std::alloc::{AllocError, Global};
use text::Text;
use zen_disk::Side;

#[tactic(auto, unfolding(crate::specs::Report::digest_text))]
fn write_digest(alloc: Global, text: &mut Text, state: &ClusterState) -> Result<(), AllocError>
    requires { IsFit state.now }
    ensures { OnOk result (text.new ≡ text.old ++ digest_text state.now) }
{
    let encoded = encode_state(alloc, state)?;
    let digest = Sha256::digest(encoded.as_slice());
    let shown = hex::encode(alloc, digest.as_slice())?;
    text.word(shown.as_str())
}

fn write_accepted(text: &mut Text, state: &ClusterState) -> Result<(), AllocError>
    ensures { OnOk result (text.new ≡ text.old ++ accepted_lines state.now) }
{
    text.word("accepted=")?;
    text.number(state.term)?;
    text.word("/")?;
    text.number(state.version)?;
    text.word("\nconfig=")?;
    text.ids(state.config.as_slice())
}

fn write_state(alloc: Global, text: &mut Text, state: &ClusterState) -> Result<(), AllocError>
    requires { IsFit state.now }
    ensures { OnOk result (text.new ≡ text.old ++ state_lines state.now) }
{
    text.word("\nsha256=")?;
    write_digest(alloc, text, state)?;
    text.word("\nstate=")?;
    let json = to_json(alloc, state)?;
    text.bytes(json.as_slice())?;
    text.word("\n")
}

/// Writes the seven lines that show what a journal keeps that has so many bodies in use.
pub fn write_report(
    alloc: Global,
    text: &mut Text,
    kept: &Kept,
    records: u64,
) -> Result<(), AllocError>
    requires { IsFit kept.now.accepted }
    ensures { OnOk result (text.new ≡ text.old ++ report kept.now records) }
{
    text.word("term=")?;
    text.number(kept.term)?;
    text.word("\n")?;
    write_accepted(text, &kept.accepted)?;
    text.word("\ncommitted=")?;
    text.ids(kept.committed.members().as_slice())?;
    text.word("\nrecords=")?;
    text.number(records)?;
    write_state(alloc, text, &kept.accepted)
}

fn name_of_fault(fault: BodyFault) -> &'static str
    ensures { result.now ≡ body_fault_text fault }
{
    match fault {
        BodyFault::Tag => "Tag",
        BodyFault::Field(fault) => fault.name(),
        BodyFault::Trailing => "Trailing",
    }
}

// A fault's name up to its bracket, where it is, and the other bracket.
fn write_at(text: &mut Text, name: &str, at: u64) -> Result<(), AllocError>
    ensures { OnOk result (text.new ≡ text.old ++ (name.now ++ decimal at ++ codes ")")) }
{
    text.word(name)?;
    text.number(at)?;
    text.word(")")
}

fn write_body_fault(text: &mut Text, at: u64, fault: BodyFault) -> Result<(), AllocError>
    ensures { OnOk result (text.new ≡ text.old ++ fault_text (faults.Body at fault)) }
{
    text.word("Body(")?;
    text.number(at)?;
    text.word(",")?;
    text.word(name_of_fault(fault))?;
    text.word(")")
}

fn write_fault(text: &mut Text, fault: Fault) -> Result<(), AllocError>
    ensures { OnOk result (text.new ≡ text.old ++ fault_text fault) }
{
    match fault {
        Fault::Header => text.word("Header"),
        Fault::Cut(at) => write_at(text, "Cut(", at),
        Fault::Long(at) => write_at(text, "Long(", at),
        Fault::Body(at, fault) => write_body_fault(text, at, fault),
        Fault::Damaged { at, .. } => write_at(text, "Damaged(", at),
        Fault::Order(at) => write_at(text, "Order(", at),
    }
}

fn write_why(text: &mut Text, why: Why) -> Result<(), AllocError>
    ensures { OnOk result (text.new ≡ text.old ++ why_text why) }
{
    match why {
        Why::At(Side::Zero, fault) => write_fault(text, fault),
        Why::At(Side::One, fault) => {
            text.word("1:")?;
            write_fault(text, fault)
        }
        Why::Twin => text.word("Twin"),
    }
}

/// Writes why two files are no journal, as `zen: not a journal: Cut(8)` with a line feed.
pub fn write_not_a_journal(text: &mut Text, why: Why) -> Result<(), AllocError>
    ensures { OnOk result (text.new ≡ text.old ++ not_a_journal why) }
{
    text.word("zen: not a journal: ")?;
    write_why(text, why)?;
    text.word("\n")
}
