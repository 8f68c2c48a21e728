// The flow control of a body: how much of it the parent may send before the page has read some. This project's own; in
// outline after the OnProgress back pressure of Firefox's HttpBackgroundChannelParent and HttpChannelParent.
#![tactic(auto)]

mod window;

pub use window::Window;
