//! The program's version.

/// The name of the program, a blank, and its version.
pub const VERSION: &str = "census 0.2.0";
