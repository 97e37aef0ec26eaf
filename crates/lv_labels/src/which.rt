use crate::moves::Move;

/// What an obligation is about.
#[derive(Debug, Clone, Copy, PartialEq, Eq)]
pub enum Which {
    /// The invariant holds at first.
    Start {
        invariant: u32,
    },
    /// The invariant holds after a step of the action, where the monitor makes the move.
    Step {
        action: u32,
        mv: Move,
        invariant: u32,
    },
    /// No state is caught.
    Catch,
}
