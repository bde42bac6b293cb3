//! Readers and writers that remember that they failed, and blocks of bytes that go to a writer together.
//!
//! An `Input` holds a reader and a flag, an `Output` a writer and a flag. The first call that fails raises the flag. It stays
//! raised from then on, and no further call reaches the reader or writer. So whoever holds one can distinguish a failure of the
//! reader or writer from every other cause of an error. A call that a signal interrupts has not failed: it is repeated.
//!
//! Tested in `tests_reports`.
#![tactic(auto)]

mod block;
mod failed;
mod input;
mod interrupted;
mod output;
mod putting;
mod reading;
mod streams;
mod writing;

pub use block::Block;
pub use failed::Failed;
pub use input::Input;
pub use output::Output;
pub use putting::{put, put_number, send};
pub use reading::{ReadFault, read_all};
pub use streams::Streams;
pub use writing::put_all;
