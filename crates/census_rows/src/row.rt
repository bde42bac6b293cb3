//! The lines of a report.

/// The finding about a pattern, apart from its rule and its population. The content of the line for each kind is one arm of
/// `Finding::said`.
#[derive(Clone, Copy)]
pub enum Finding<'a> {
    /// It recurs.
    Ok {
        onset: u64,
        period: u64,
        dx: i64,
        dy: i64,
        code: &'a [u8],
    },
    /// It has fallen apart.
    Ash {
        onset: u64,
        objects: u64,
    },
    /// It does none of these within the bound.
    Unresolved,
    /// A generation has more cells than the limit.
    Large {
        generation: u64,
    },
    /// It grows forever, by this number of engines.
    Grows {
        engines: u64,
    },
}

/// The outcome of a pattern, as in a `line` line.
#[derive(Clone, Copy)]
pub enum Outcome<'a> {
    /// A finding about it, with its rule and its population.
    Found {
        rule: &'a [u8],
        population: u64,
        finding: Finding<'a>,
    },
    /// Its text has a fault.
    Bad {
        fault: u64,
    },
}

/// A line of a report.
#[derive(Clone, Copy)]
pub enum Row<'a> {
    /// A collection begins.
    Open {
        collection: u64,
        patterns: u64,
        name: &'a [u8],
    },
    /// The outcome of a pattern.
    Line {
        collection: u64,
        pattern: u64,
        outcome: Outcome<'a>,
        name: &'a [u8],
    },
    /// The number of parts of a pattern that have one code.
    Part {
        collection: u64,
        pattern: u64,
        code: &'a [u8],
        count: u64,
    },
    /// Engines of a pattern with the same description: the period of each, how far to the right and down it moves in one, and
    /// the number of these engines.
    Engine {
        collection: u64,
        pattern: u64,
        number: u64,
        period: u64,
        dx: i64,
        dy: i64,
        count: u64,
    },
    /// The number of objects with one code that an engine emits in a period.
    Emits {
        collection: u64,
        pattern: u64,
        engine: u64,
        code: &'a [u8],
        count: u64,
    },
    /// The number of times that an object occurs in a collection.
    Code {
        collection: u64,
        rule: &'a [u8],
        code: &'a [u8],
        count: u64,
    },
    /// A collection ends.
    Close {
        collection: u64,
        patterns: u64,
        resolved: u64,
        unresolved: u64,
        refused: u64,
    },
    /// The report ends.
    End {
        collections: u64,
        patterns: u64,
    },
}
