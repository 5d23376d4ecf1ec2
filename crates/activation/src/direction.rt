//! The direction in which a minute is activated.

/// Whether a minute's request raises or lowers the pool's power.
#[derive(Clone, Copy, PartialEq, Eq, Debug)]
pub enum Direction {
    Upward,
    Downward,
    /// The request is zero.
    Neither,
}
