//! A rule and its cells.
ghost use Rattle.std.specs.Prelude.{◌≡◌, All, IfErr, IfOk, OnErr, OnOk};
ghost use Rattle.life_model.specs.Generation as generation;
ghost use Rattle.life_cells.specs.Limits.{IsWithin};

use life_cells::{CellList, Rule};
use std::marker::Model;

/// A Life-like rule and a finite set of live cells, whose coordinates are from 0 to 1,048,575.
#[derive(Drop)]
pub struct Pattern {
    rule: Rule,
    cells: CellList,
}

impl Model for Pattern {
    ghost use Rattle.std.specs.Prelude.{All};
    ghost use Rattle.life_model.specs.Generation as generation;
    ghost use Rattle.life_cells.specs.Limits.{IsWithin};
    ghost use Rattle.life_text.specs.Picture.{Picture, coded_picture};

    ghost Value = { Picture };

    ghost coded = { coded_picture };

    ghost view = { λ p. record { rule = p.rule; cells = p.cells } };

    ghost invariant = { λ p. All (IsWithin 0) (generation.cells p.cells) };
}

impl Pattern {
    /// The pattern of a rule and cells. A list that doesn't fit, because a coordinate is below 0 or above 1,048,575, is
    /// returned.
    pub fn new(rule: Rule, cells: CellList) -> Result<Pattern, CellList>
        ensures pattern { IfOk result (λ pattern. pattern ≡ record { rule = rule; cells = cells }) }
        ensures fits { OnOk result (All (IsWithin 0) (generation.cells cells)) }
        ensures back { IfErr result (λ list. list ≡ cells) }
        ensures outside { OnErr result (All (IsWithin 0) (generation.cells cells) → ⊥) }
    {
        if cells.fits() {
            Ok(Pattern { rule, cells })
        } else {
            Err(cells)
        }
    }

    /// The pattern of a rule and cells that fit.
    pub fn within(rule: Rule, cells: CellList) -> Pattern
        requires { All (IsWithin 0) (generation.cells cells) }
        ensures { result ≡ record { rule = rule; cells = cells } }
    {
        Pattern { rule, cells }
    }

    /// The rule.
    pub fn rule(&self) -> Rule
        ensures { result ≡ self.now.rule }
    {
        self.rule
    }

    /// The live cells of generation 0.
    pub fn cells(&self) -> &CellList
        ensures cells { result.now ≡ self.now.cells }
        ensures fits { All (IsWithin 0) (generation.cells self.now.cells) }
    {
        &self.cells
    }
}
