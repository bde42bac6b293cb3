//! Cells in order.
ghost use Rattle.std.specs.Prelude.{◌≡◌, ℕ, T, All, IsTrue};
ghost use Rattle.std.specs.declared.cmp.Ordering.TheVariants.{Less};
ghost use Rattle.life_model.specs.Cell.{cell_cmp};
ghost use Rattle.life_model.specs.Generation.{from_list, is_rising};
ghost use Rattle.life_cells.specs.Limits.{IsPlace, IsWithin};

/// True where a cell comes before another, by y, then by x.
fn is_before(cell: (i32, i32), other: (i32, i32)) -> bool
    ensures { IsTrue result → cell_cmp cell other ≡ Less }
{
    cell.1 < other.1 || (cell.1 == other.1 && cell.0 < other.0)
}

/// True where cells are sorted by y, then by x, each once.
fn are_rising(cells: &[(i32, i32)]) -> bool
    ensures { IsTrue result → T (is_rising cells.now) }
{
    for at in 1..cells.len() {
        if !is_before(cells[at - 1], cells[at]) {
            return false;
        }
    }
    true
}

/// Sorts cells by y, then by x, and drops repeats.
pub fn put_in_order(items: &mut Vec<(i32, i32)>)
    ensures rising { T (is_rising items.new.items) }
    ensures same { from_list items.new.items ≡ from_list items.old.items }
    ensures placed { All IsPlace items.old.items → All IsPlace items.new.items }
    ensures within { (a : ℕ) → All (IsWithin a) items.old.items → All (IsWithin a) items.new.items }
{
    if are_rising(items) {
        return;
    }
    // (a stable sort makes use of the runs of its input; without memory for it the other sort gives the same result)
    if items.sort_by_key(|c| (c.1, c.0)).is_err() {
        items.sort_unstable_by_key(|c| (c.1, c.0));
    }
    items.dedup();
}
