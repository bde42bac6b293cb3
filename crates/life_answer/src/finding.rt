//! The finding for a pattern, and the answer to a text.
ghost use Rattle.std.specs.Prelude.{◌≡◌};
ghost use Rattle.life_answer.specs.Census.{engines_found, parts_found};

use crate::code::Code;
use crate::engine_list::EngineList;
use crate::part::Part;
use crate::parts::Parts;
use crate::tale::Engines;
use life_cells::Rule;

/// The finding for a pattern within a bound.
#[derive(Drop)]
pub struct Finding {
    /// The number of live cells of generation 0.
    pub population: u64,
    /// The outcome within the bound.
    pub outcome: Outcome,
}

/// The outcome of a pattern within a bound.
#[derive(Drop)]
pub enum Outcome {
    /// It recurs, moved as a whole.
    Recurs {
        /// The first generation that recurs within the bound.
        onset: u32,
        /// The number of generations after which that one first recurs.
        period: u32,
        /// The number of columns that it has then moved to the right; 0 if there is no cell.
        dx: i32,
        /// The number of rows that it has then moved down; 0 if there is no cell.
        dy: i32,
        /// The code of the object that it has become.
        code: Code,
    },
    /// No generation recurs within the bound.
    Unresolved,
    /// Some generation has more cells than it may have.
    Large {
        /// The first such generation.
        generation: u32,
    },
    /// It has fallen apart into objects.
    Ash {
        /// The first generation that is ash within the bound.
        onset: u32,
        /// The objects.
        parts: Parts,
    },
    /// It grows for ever.
    Grows {
        /// The engines by which it grows.
        engines: EngineList,
    },
}

impl Outcome {
    /// The objects that it has fallen apart into, or none.
    pub fn parts(&self) -> &[Part]
        ensures { result.now ≡ parts_found self.now }
    {
        match self {
            Outcome::Ash { parts, .. } => parts.as_slice(),
            _ => &[],
        }
    }

    /// The engines by which it grows, with one entry for each tale, or none.
    pub fn engines(&self) -> &[Engines]
        ensures { result.now ≡ engines_found self.now }
    {
        match self {
            Outcome::Grows { engines } => engines.as_slice(),
            _ => &[],
        }
    }
}

/// The answer to an RLE text within a bound.
#[derive(Drop)]
pub enum Answer {
    /// The text means a pattern.
    Found { rule: Rule, finding: Finding },
    /// The text is no pattern: the number of its fault, from 1 to 10.
    Refused(u8),
}
