// The failure that ends a channel: the first one, which all later ones leave in place. After the mStatus of Firefox's
// HttpBaseChannel, which the first cancel alone sets.
#![tactic(auto)]

mod first;

pub use first::First;
