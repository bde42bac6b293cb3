//! Shapes: sets of cells regardless of their position.
ghost use Rattle.std.specs.Prelude.{◌≡◌, ◌↔◌, ◌<◌, ◌≤◌, ◌++◌, All, IfOk, IsTrue, OnErr, OnOk, T, length, map};
ghost use Rattle.life_model.specs.Box.{height, width};
ghost use Rattle.life_model.specs.Cell.{opposite, plus};
ghost use Rattle.life_model.specs.Generation.{cells, is_rising};
ghost use Rattle.life_model.specs.Symmetry.{corner, corner_of, normal, turn, image_under};
ghost use Rattle.life_cells.specs.Limits.{IsPlace, extent_limit};
ghost use Rattle.life_cells.specs.NormalForms.{IsAhead};
ghost use Rattle.life_cells.specs.Orients.{orientation};
ghost use Rattle.life_cells.specs.Wechsler.{body};

use crate::cell_list::CellList;
use crate::cornering::corner;
use crate::order::put_in_order;
use crate::orient::Orient;
use crate::writer::text_of;
use std::alloc::{AllocError, Global};
use std::marker::Model;

/// A set of cells, moved so that the least x and the least y are 0.
#[derive(Drop)]
pub struct Shape {
    list: CellList,
    alloc: Global,
}

impl Model for Shape {
    ghost use Rattle.life_model.specs.Coded.{coded_generation};
    ghost use Rattle.life_model.specs.Generation.{Generation};
    ghost use Rattle.life_cells.specs.NormalForms.{IsNormal};

    ghost Value = { Generation };

    ghost coded = { coded_generation };

    ghost view = { λ s. s.list };

    ghost invariant = { λ s. IsNormal s.list };
}

impl PartialEq for Shape {
    ghost use Rattle.std.specs.Prelude.{◌≡◌, ◌↔◌, IsTrue};
    ghost use Rattle.std.specs.Cmp.{partial_equiv_from_equiv};
    ghost use Rattle.life_cells.specs.Alike.{same_cells};
    ghost use Rattle.life_cells.specs.Alike.{same_cells_equiv};

    ghost eq = { same_cells };

    ghost laws = { partial_equiv_from_equiv same_cells_equiv };

    fn eq(&self, other: &Shape) -> bool
        ensures value { result ≡ same_cells self.now other.now }
        ensures same { IsTrue result ↔ (self.now ≡ other.now) }
    {
        self.list.as_slice() == other.list.as_slice()
    }
}

impl Eq for Shape {
    ghost use Rattle.life_cells.specs.Alike.{same_cells_equiv};

    ghost laws = { same_cells_equiv };
}

// The cell after the move that takes the corner to the origin.
fn back(cell: (i32, i32), corner: (i32, i32)) -> (i32, i32)
    requires { IsAhead corner cell }
    ensures { result ≡ plus cell (opposite corner) }
{
    (cell.0 - corner.0, cell.1 - corner.1)
}

// The cells after the move that takes the corner to the origin.
fn moved_back(
    alloc: Global,
    cells: &[(i32, i32)],
    corner: (i32, i32),
) -> Result<Vec<(i32, i32)>, AllocError>
    requires { All (IsAhead corner) cells.now }
    ensures moved { IfOk result
        (λ moved. moved.items ≡ map (λ c. plus c (opposite corner)) cells.now) }
    ensures memory { OnErr result (0 < length cells.now) }
{
    let mut moved = Vec::with_capacity(alloc, cells.len())?;
    for cell in cells {
        moved.push(back(*cell, corner))?;
    }
    Ok(moved)
}

// The images of the cells.
fn turned_cells(
    alloc: Global,
    cells: &[(i32, i32)],
    orient: Orient,
) -> Result<Vec<(i32, i32)>, AllocError>
    requires { All IsPlace cells.now }
    ensures { IfOk result (λ mapped. mapped.items ≡ map (turn (orientation orient)) cells.now) }
{
    let mut turned = Vec::with_capacity(alloc, cells.len())?;
    for cell in cells {
        turned.push(orient.turn(*cell))?;
    }
    Ok(turned)
}

impl Shape {
    /// The shape of the cells, and their least x and least y, which are (0, 0) if there is no cell. Their bounding box
    /// is at most 16,777,216 wide and high.
    pub fn of(alloc: Global, list: &CellList) -> Result<(Shape, (i32, i32)), AllocError>
        requires wide { width list.now ≤ extent_limit }
        requires high { height list.now ≤ extent_limit }
        ensures shape { IfOk result (λ r. r.0 ≡ normal list.now) }
        ensures corner { IfOk result (λ r. r.1 ≡ corner list.now) }
        // Without a cell it never runs out of memory.
        ensures memory { OnErr result (0 < length (cells list.now)) }
    {
        let cells = list.as_slice();
        let corner = corner(cells);
        let list = CellList::from_ordered(moved_back(alloc, cells, corner)?);
        Ok((Shape { list, alloc }, corner))
    }

    /// The cells in order.
    pub fn list(&self) -> &CellList
        ensures cells { result.now ≡ self.now }
        ensures normal { normal self.now ≡ self.now }
    {
        &self.list
    }

    /// The width of its bounding box: one more than the greatest x, or 0 if there is no cell.
    pub fn width(&self) -> u32
        ensures { result ≡ width self.now }
    {
        let mut width = 0;
        for cell in self.list.as_slice() {
            width = width.max(cell.0 as u32 + 1);
        }
        width
    }

    /// The height of its bounding box: one more than the greatest y, or 0 if there is no cell.
    pub fn height(&self) -> u32
        ensures { result ≡ height self.now }
    {
        let mut height = 0;
        for cell in self.list.as_slice() {
            height = height.max(cell.1 as u32 + 1);
        }
        height
    }

    /// The shape of the images of its cells.
    pub fn turned(&self, orient: Orient) -> Result<Shape, AllocError>
        ensures { IfOk result
            (λ shape. shape ≡ normal (image_under self.now (orientation orient))) }
    {
        let mut cells = turned_cells(self.alloc, self.list.as_slice(), orient)?;
        put_in_order(&mut cells);
        let (shape, _) = Shape::of(self.alloc, &CellList::from_ordered(cells))?;
        Ok(shape)
    }

    /// Its Wechsler text.
    pub fn text(&self) -> Result<Vec<u8>, AllocError>
        ensures { IfOk result (λ text. text.items ≡ body self.now) }
    {
        let strips = self.height().div_ceil(5);
        text_of(self.alloc, self.list.as_slice(), strips)
    }

    /// Appends its Wechsler text. After an `Err` the vector is unchanged.
    pub fn encode(&self, out: &mut Vec<u8>) -> Result<(), AllocError>
        ensures ok { OnOk result (out.new.items ≡ out.old.items ++ body self.now) }
        ensures err { OnErr result (out.new.items ≡ out.old.items) }
    {
        let text = self.text()?;
        out.extend_from_slice(&text)?;
        Ok(())
    }
}
