//! What ties the crash clauses of a node over its link to systems of nodes. The calls do nothing: what they promise is
//! proved.
ghost use Rattle.node_loop.specs.Killed.{LawCrashIsKill, LawEndIsKept, LawMomentIsCut};
ghost use Rattle.node_loop.specs.NextRuns.{LawNextAfterEnd, LawNextAfterKill};

use zen_disk::Disks;

/// What a crash leaves at a moment of an event is what a node leaves that was killed within it, with nothing of it sent:
/// in a system it may have been killed so.
pub fn law_crash_is_kill()
    ensures { LawCrashIsKill }
{}

/// Whatever a crash leaves at a moment of a run over a disk that tells, it might have left that before the run, or it is
/// what a node leaves that lived the first entries of this run and was killed within the next one.
pub fn law_moment_is_cut<D: Disks>()
    ensures { LawMomentIsCut D.Disks }
{}

/// The last record of a run, as the clause on its end says it, is what its life leaves, with a struck act kept or not.
pub fn law_end_is_kept()
    ensures { LawEndIsKept }
{}

/// After a run that ended, the next one of its node may begin with each record that its disk may leave: in the same system,
/// or, where the last event met a fault of the disk, in the one in which that event is settled.
pub fn law_next_after_end()
    ensures { LawNextAfterEnd }
{}

/// So it may after a run that was killed within an event, in the system in which the node died so.
pub fn law_next_after_kill()
    ensures { LawNextAfterKill }
{}
