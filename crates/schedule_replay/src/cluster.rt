//! Whole nodes of a replay: coordinators over memory disks, and what each line of a schedule of level node makes of them.

pub(crate) mod node;
pub(crate) mod replayer;
pub(crate) mod stepping;
