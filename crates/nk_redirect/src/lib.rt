// What the two sides of a channel ask each other on a redirect: the parent asks with Redirect1, the child answers with
// Verify, and a redirect that is allowed is followed with Redirect3. After Firefox's HttpChannelParentListener and
// RedirectChannelRegistrar in outline; that at most 20 are followed is after nsHttpHandler's redirection limit.
#![tactic(auto)]

mod child_half;
mod parent_half;

pub use child_half::{Answer, ChildHalf};
pub use parent_half::{Begin, ParentHalf, Verified};
