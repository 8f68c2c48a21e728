// The parent's half of a channel: it loads the response, hop by hop, sends the start on the lane of the plan and the
// body to its background half, and obeys what comes from the page. After Firefox's HttpChannelParent.
#![tactic(auto)]

mod load;
mod parent;

pub use parent::Parent;
