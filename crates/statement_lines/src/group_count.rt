//! The groups of a pool.

use quantity::UpTo;

/// How many groups a pool has: 1 to 8.
pub type GroupCount = UpTo<8>;
