//! How large a report and its numbers may be.

/// The most collections of a report, and the most patterns of a collection.
pub const COUNT_LIMIT: u64 = 65_535;

/// The greatest number of a fault of a text; 0 is a text that could not be read.
pub const FAULT_LIMIT: u64 = 10;

/// The most live cells of a pattern.
pub const CELL_LIMIT: u64 = 1_048_576;

/// The last generation by which something is found of a pattern, other than growth.
pub const BOUND_LIMIT: u64 = 1_000_000;

/// The most generations after which an engine recurs.
pub const PERIOD_LIMIT: u64 = 10_000;
