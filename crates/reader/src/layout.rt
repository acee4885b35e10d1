// The words of a reader's state, as document 01 has them. Where a block begins and how many words there are follows from these numbers alone.

// Letters taken, depth, and 1 if stopped.
pub const LEADING: usize = 3;

// The rows of a block.
pub const ROWS: usize = 64;

// A block: its open letter, then its rows.
pub const BLOCK: usize = ROWS + 1;

// The greatest depth.
pub const DEEPEST: usize = 32;

// How many words a reader must be lent.
pub const STATE: usize = LEADING + BLOCK * (DEEPEST + 1);
