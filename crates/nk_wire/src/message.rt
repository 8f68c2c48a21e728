// A message of any lane.

use nk_base::{BackMsg, MainMsg, UpMsg};

/// A message of one of the three lanes. This project's own.
#[derive(Drop)]
pub enum AnyMsg {
    /// From the parent to the child, on the main lane.
    Main(MainMsg),
    /// From the parent's background half to the child's.
    Back(BackMsg),
    /// From the child to the parent.
    Up(UpMsg),
}
