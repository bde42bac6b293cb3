//! The plane of small patterns.
ghost use Rattle.std.specs.Prelude.{◌≡◌};
ghost use Rattle.life_board.specs.Kinds.{IsKind};

use crate::kind::Kind;
use life_cells::{CellList, Rule};
use life_plane::Plane;
use std::alloc::{AllocError, Global};
use std::marker::Model;

/// A plane that keeps its live cells in one square of 64 by 64 cells, as rows of bits, for as long as they stay in it,
/// and after that in tiles. In the square a step, the span and a comparison with a list or with another square take no
/// memory.
#[derive(Drop)]
pub struct Board {
    kind: Kind,
}

impl Model for Board {
    ghost use Rattle.std.specs.Prelude.{ℕ};
    ghost use Rattle.life_model.specs.Generation.{Generation};
    ghost use Rattle.life_plane.specs.Kept.{coded_plane};
    ghost use Rattle.life_board.specs.Kinds.{age_of, members_of, IsKind};

    ghost Value = { Generation × ℕ };

    ghost coded = { coded_plane };

    ghost view = { λ p. (members_of p.kind, age_of p.kind) };

    ghost invariant = { λ p. IsKind p.kind };
}

impl Board {
    /// The number of bands of eight rows that the next step computes, which determines its time. No answer depends on
    /// it.
    pub fn active_bands(&self) -> u64 {
        self.kind.active_bands()
    }
}

impl Plane for Board {
    ghost members = { λ p. p.0 };

    ghost steps_made = { λ p. p.1 };

    fn from_cells(alloc: Global, list: &CellList) -> Result<Self, AllocError> {
        let mut kind = Kind::around(alloc, list, 0);
        kind.fill(alloc, list, 0)?;
        Ok(Board { kind })
    }

    fn at_age(alloc: Global, list: &CellList, age: u32) -> Result<Self, AllocError> {
        let mut kind = Kind::around(alloc, list, age);
        kind.fill(alloc, list, age)?;
        Ok(Board { kind })
    }

    fn step(&mut self, rule: &Rule) -> Result<(), AllocError> {
        self.kind.step(rule)?;
        Ok(())
    }

    fn population(&self) -> u64 {
        self.kind.population()
    }

    fn age(&self) -> u32 {
        self.kind.age()
    }

    fn row(&self, cell: (i32, i32)) -> u64 {
        self.kind.row(cell)
    }

    fn may_have_moved(&self, list: &CellList, reach: u32) -> bool {
        self.kind.may_have_moved(list, reach)
    }

    fn cells(&self) -> Result<CellList, AllocError> {
        self.kind.cells()
    }

    fn cells_in(&self, list: CellList) -> Result<CellList, AllocError> {
        self.kind.cells_in(list)
    }

    fn span(&self) -> Result<(i32, i32), AllocError> {
        self.kind.span()
    }

    fn offset_from(&self, list: &CellList) -> Result<Option<(i32, i32)>, AllocError> {
        self.kind.offset_from(list)
    }

    fn offset_from_plane(&self, other: &Self) -> Result<Option<(i32, i32)>, AllocError> {
        self.kind.offset_from_plane(&other.kind)
    }

    fn copy(&self) -> Result<Self, AllocError> {
        let kind = self.kind.copy()?;
        Ok(Board { kind })
    }
}
