// The half of a channel that the page sees: it takes what the parent sends on two lanes, runs the events in order and each
// on its target, shows them to the listener, and sends the page's calls up. Each step is one row of the child's table,
// which nk_plan's specs/Child.antt defines. After Firefox's HttpChannelChild and HttpBackgroundChannelChild in outline;
// the table is this project's own.
#![tactic(auto)]

mod act;
mod broken;
mod callback;
mod child;
mod flush;
mod lanes;
mod page;
mod queued;
mod run;
mod standing;
mod step;
mod verdict;
mod work;

pub use child::Child;
