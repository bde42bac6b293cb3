//! The error of readers and writers that have failed.
use thiserror::Error;

/// The reader or the writer has failed, in this call or in an earlier one.
#[derive(Clone, Copy, Debug, PartialEq, Eq, Drop, Error)]
#[error("the reader or writer failed")]
pub struct Failed;
