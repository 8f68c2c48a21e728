// The laws over the definitions of nk_plan: what holds of every plan, every run of the tables and every order of steps.
// The crate holds nothing that runs; the parts of the channel that rest on a law stand on it.
#![tactic(auto)]

mod laws;

pub use laws::{
    calm_law, ending_law, journal_law, lanes_law, merge_law, moves_law, order_law, state_law,
    walk_law,
};
