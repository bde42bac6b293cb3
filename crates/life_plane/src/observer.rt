//! Observers of the progress of a walk.

/// Hears how far a walk along the generations of a pattern has come. No answer depends on it.
pub trait Observer {
    /// The walk has come to this generation. A walk may start again, and then reports early generations again.
    fn reached(&self, generation: u32);
}

/// The observer that ignores everything.
#[derive(Drop)]
pub struct Unobserved;

impl Observer for Unobserved {
    fn reached(&self, _generation: u32) {}
}
