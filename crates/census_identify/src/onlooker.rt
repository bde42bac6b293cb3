//! Callbacks for the progress of a report.
use life_plane::Observer;

/// A callback for the progress of each file. The report on a file does not depend on it.
pub trait Onlooker {
    /// The pattern of this argument has reached this generation. It may begin again, and then early generations are reported
    /// again.
    fn reached(&self, word: &str, generation: u32);
}

/// An onlooker that ignores what it hears.
#[derive(Drop)]
pub struct Unseen;

impl Onlooker for Unseen {
    fn reached(&self, _word: &str, _generation: u32) {}
}

/// The observer of the pattern of one argument, which passes on what it hears.
#[derive(Drop)]
pub(crate) struct WordObserver<'a, L> {
    pub(crate) onlooker: &'a L,
    pub(crate) word: &'a str,
}

impl<'a, L: Onlooker> Observer for WordObserver<'a, L> {
    fn reached(&self, generation: u32) {
        self.onlooker.reached(self.word, generation);
    }
}
