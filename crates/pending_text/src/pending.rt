//! Pending text.

ghost use Rattle.std.specs.Prelude.{◌≡◌, ◌≤◌, replicate};

/// A block of a statement: text is handed out by so many bytes, but for the day's last.
pub const BLOCK: usize = 512;

/// The most text that is ever pending: a record line, which is the longest, behind the most bytes that are no block.
pub const CAPACITY: usize = 676;

/// Text that was written and not yet handed out, from the first byte.
// An array and its length, and no `ArrayVec`: that is never `Copy`, and no clause can speak of the bytes behind its text.
#[derive(Clone, Copy)]
pub struct PendingText {
    pub(crate) bytes: [u8; CAPACITY],
    pub(crate) length: usize,
    ghost within: { length ≤ 676 },
}

impl PendingText {
    /// Nothing is pending.
    pub fn new() -> PendingText
        ensures bytes { result.bytes ≡ replicate 676 0 }
        ensures length { result.length ≡ 0 }
    {
        PendingText {
            bytes: [0; CAPACITY],
            length: 0,
        }
    }

    /// How many bytes are pending.
    pub fn length(&self) -> usize
        ensures { result ≡ self.now.length }
    {
        self.length
    }
}
