//! The gate of the program, which shows progress.
use crate::screen::Screen;
use census_bundle::Ticket;
use census_crew::Gate;
use std::io::Eprint;
use std::time::Clock;

/// The gate of a program at a terminal: it shows on a screen the progress of a run, or of a pattern, and holds no worker.
#[derive(Drop)]
pub struct Progress<'a, R> {
    screen: &'a Screen<'a, R>,
}

impl<'a, R: Clock + Eprint> Progress<'a, R> {
    /// A gate that shows progress on this screen.
    pub fn new(screen: &'a Screen<'a, R>) -> Self {
        Progress { screen }
    }
}

impl<'a, R: Clock + Eprint + Sync> Gate for Progress<'a, R> {
    type Pass = ();

    ghost admits = { λ _ _. Unit {0} };

    fn begin(&mut self, patterns: u64) {
        self.screen.begin(patterns);
    }

    fn enter(&self, _ticket: Ticket) {}

    fn end(&mut self) {
        self.screen.end();
    }

    fn reached(&self, name: &[u8], generation: u32, last: u32) {
        self.screen.reach(name, generation, last);
    }

    fn started(&self, worker: u32, collection: &[u8], name: &[u8]) {
        self.screen.start(worker, collection, name);
    }

    fn advanced(&self, worker: u32, generation: u32) {
        self.screen.advance(worker, generation);
    }

    fn finished(&self, worker: u32) {
        self.screen.finish(worker);
    }
}
