//! The corner of a set of cells.
ghost use Rattle.std.specs.Prelude.{◌≡◌};
ghost use Rattle.life_model.specs.Symmetry.{corner_of};

/// The least x and the least y of the cells, or (0, 0) if there is none.
pub fn corner(cells: &[(i32, i32)]) -> (i32, i32)
    ensures { result ≡ corner_of cells.now }
{
    match cells {
        [] => (0, 0),
        [first, rest @ ..] => {
            let (mut x, mut y) = *first;
            for cell in rest {
                x = x.min(cell.0);
                y = y.min(cell.1);
            }
            (x, y)
        }
    }
}
