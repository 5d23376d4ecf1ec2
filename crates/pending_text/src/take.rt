//! Blocks from the front of the pending text.

ghost use Rattle.std.specs.Prelude.{◌≡◌, ◌≤◌, ◌++◌, IfOk, length, replicate, drop as past};
ghost use Rattle.quantity.specs.Refusals.{Answers};
ghost use Rattle.count_text.specs.Columns.{Writes};
ghost use Rattle.pending_text.specs.Pending.{block_refusal, BlockTaken, all_refusal, AllTaken};

use crate::pending::{BLOCK, CAPACITY, PendingText};
use quantity::Refusal;

impl PendingText {
    /// Moves the first block into the buffer, from its first byte; the rest of the buffer stays. What stood behind the block
    /// moves to the front, and zeros stand behind it.
    /// Refuses (15) where less than a block is pending, then (16) where the buffer is shorter, and leaves text and buffer as they were.
    pub fn take_block(&mut self, out: &mut [u8]) -> Result<(), Refusal>
        ensures refused_first { Writes (block_refusal self.old (length out.old)) result }
        ensures taken { BlockTaken (block_refusal self.old (length out.old)) self.old self.new out.old out.new }
        ensures zeros { IfOk result (λ _. self.new.bytes ≡ past 512 self.old.bytes ++ replicate 512 0) }
    {
        if self.length < BLOCK {
            return Err(Refusal::BlockNotFull);
        }
        if out.len() < BLOCK {
            return Err(Refusal::BufferTooShort);
        }
        out[0..BLOCK].copy_from_slice(&self.bytes[0..BLOCK]);
        self.bytes.copy_within(BLOCK.., 0);
        self.bytes[CAPACITY - BLOCK..].fill(0);
        self.length -= BLOCK;
        Ok(())
    }

    /// Moves all pending text into the buffer, from its first byte, and answers how long it was; the rest of the buffer stays.
    /// Refuses (16) where the buffer is shorter, and leaves text and buffer as they were.
    pub fn take_all(&mut self, out: &mut [u8]) -> Result<usize, Refusal>
        ensures refused_first { Answers (all_refusal self.old (length out.old)) (λ n. n ≡ self.old.length) result }
        ensures taken { AllTaken (all_refusal self.old (length out.old)) self.old self.new out.old out.new }
    {
        let length = self.length;
        if out.len() < length {
            return Err(Refusal::BufferTooShort);
        }
        out[0..length].copy_from_slice(&self.bytes[0..length]);
        *self = PendingText::new();
        Ok(length)
    }
}
