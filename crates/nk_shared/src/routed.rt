// What a turn of a router answers.

/// What a turn of a router did. This project's own.
#[derive(Clone, Copy, Debug, Drop, PartialEq, Eq)]
pub enum Routed {
    /// The frame was sent on the end of this id.
    Did(u32),
    /// The taking end gave no frame, and nothing changed.
    Idle,
    /// No live end has this id, which came with the frame; the frame was dropped.
    Stray(u32),
    /// On the end of this live id as many frames were sent as its capacity; the frame was dropped.
    Full(u32),
}
