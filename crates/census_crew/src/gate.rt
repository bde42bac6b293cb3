//! The gate that workers pass before they work, and that hears of runs.
ghost use Rattle.std.specs.Prelude.{◌≡◌, ◌∷◌, [], List, Option, None};
ghost use Rattle.census_bundle.specs.declared.ticket.Ticket.{Ticket};
ghost use Rattle.census_crew.specs.Gates.{Begun, Hears, News, Over};

use census_bundle::Ticket;

/// A gate that each worker passes with a ticket that it took, before it works. It may hold the worker. It hears when a run
/// begins and when the run has ended, and how far the workers have come with their patterns.
pub trait Gate: Sync {
    /// The pass that the gate gives to a worker.
    type Pass: Drop + Send + Sync;

    // The news of runs that it has heard, in order, if it keeps them.
    ghost heard: { Self → Option (List News) } = { λ _. None };

    // The tickets with which a worker may be given this pass.
    ghost admits: { Self.Pass → Ticket → Type 0 };

    /// A run of `patterns` patterns is about to begin.
    fn begin(&mut self, patterns: u64)
        ensures { Hears (heard self.old) (heard self.new) (Begun patterns ∷ []) };

    /// A worker took this ticket.
    fn enter(&self, ticket: Ticket) -> Self::Pass
        ensures { admits result ticket };

    /// The run has ended.
    fn end(&mut self)
        ensures { Hears (heard self.old) (heard self.new) (Over ∷ []) };

    /// Generation `_generation` of `_last` was reached of the pattern with this name.
    fn reached(&self, _name: &[u8], _generation: u32, _last: u32) {}

    /// A worker passed, and works a pattern from now on. Workers of a run are numbered from 0.
    fn started(&self, _worker: u32, _collection: &[u8], _name: &[u8]) {}

    /// A worker has come to a generation of its pattern that is a multiple of 64. It may start again, and then early
    /// generations are reported again.
    fn advanced(&self, _worker: u32, _generation: u32) {}

    /// A worker has finished with its pattern, with or without an answer.
    fn finished(&self, _worker: u32) {}
}

/// A gate that holds no worker, and ignores what it hears.
#[derive(Drop)]
pub struct OpenGate;

impl Gate for OpenGate {
    type Pass = ();

    ghost admits = { λ _ _. Unit {0} };

    fn begin(&mut self, _patterns: u64) {}

    fn enter(&self, _ticket: Ticket) {}

    fn end(&mut self) {}
}

/// A ticket with which a worker passed the gate, and the pass that it was given. Only `pass` makes one.
#[derive(Drop)]
pub(crate) struct Passed<P: Drop> {
    ticket: Ticket,
    pass: P,
}

/// Passes the gate with a ticket.
pub(crate) fn pass<G: Gate>(gate: &G, ticket: Ticket) -> Passed<G::Pass>
    ensures ticket { result.ticket ≡ ticket }
    ensures admitted { G.admits result.pass ticket }
{
    let pass = gate.enter(ticket);
    Passed { ticket, pass }
}

impl<P: Drop> Passed<P> {
    /// The ticket.
    pub(crate) fn ticket(&self) -> Ticket
        ensures { result ≡ self.now.ticket }
    {
        self.ticket
    }
}
