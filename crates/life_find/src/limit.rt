//! The limit of a search.

/// The greatest number of generations to search.
pub const BOUND_LIMIT: u32 = 1_000_000;
