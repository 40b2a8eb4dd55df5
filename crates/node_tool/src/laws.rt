//! What the tools keep and what they lose. The call does nothing: what it promises is proved.
ghost use Rattle.node_tool.specs.Laws.{LawTools};

/// Where one node of a cluster was made to go on alone, and each other one that still runs was detached, all that they do from
/// then on is safe. What is lost of what the cluster had committed is what is above the state that the node had accepted.
pub fn law_tools()
    ensures { LawTools }
{}
