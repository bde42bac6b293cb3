//! The limits on the sizes of bundles and of texts that are read.

/// The greatest number of folders in a bundle, and of entries in a folder.
pub const COUNT_LIMIT: usize = 65_535;

/// The greatest length of a text that is read from a file or from standard input, in bytes.
pub const INPUT_LIMIT: usize = 67_108_864;

/// The greatest length of a name, in bytes.
pub const NAME_LIMIT: usize = 255;
