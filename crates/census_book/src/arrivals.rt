//! Theorems about every order of arrival.
ghost use Rattle.census_book.specs.Orders.{ArrivalsAreLawful, OrdersAreLawful};
ghost use Rattle.census_book.specs.Counts.{CountsStep};

/// For every list of distinct tickets, the text that they release one after another begins a report of the bundle, and it is a
/// report if they are all the tickets.
pub fn every_order_is_lawful()
    ensures { OrdersAreLawful }
{}

/// For every list of results that are offered one after another, some of them twice or strangers, the text that the collector
/// has released begins a report of its bundle, and it is a report if no ticket is missing.
pub fn every_arrival_is_lawful()
    ensures { ArrivalsAreLawful }
{}

/// Taking a ticket adds its pattern to those of its kind, and leaves one fewer missing.
pub fn taking_adds_one()
    ensures { CountsStep }
{}
