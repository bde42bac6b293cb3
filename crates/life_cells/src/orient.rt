//! The eight maps of the plane that keep neighbours, apart from moves.
ghost use Rattle.std.specs.Prelude.{◌≡◌, length, map};
ghost use Rattle.life_model.specs.Symmetry.{Orientation, turn};
ghost use Rattle.std.specs.List.{Contains};
ghost use Rattle.life_cells.specs.Limits.{IsPlace};
ghost use Rattle.life_cells.specs.Orients.{orientation};

/// One of the eight maps of the plane that take each cell's neighbours to those of its image. The comment of each is
/// the image of a cell `(x, y)`.
#[derive(Clone, Copy, Debug, PartialEq, Eq)]
pub enum Orient {
    /// (x, y)
    Same,
    /// (-x, y)
    FlipX,
    /// (x, -y)
    FlipY,
    /// (-x, -y)
    Half,
    /// (y, x)
    Swap,
    /// (-y, x)
    SwapFlipX,
    /// (y, -x)
    SwapFlipY,
    /// (-y, -x)
    SwapHalf,
}

impl Orient {
    /// All eight, each once.
    pub const ALL: [Orient; 8] = [
        Orient::Same,
        Orient::FlipX,
        Orient::FlipY,
        Orient::Half,
        Orient::Swap,
        Orient::SwapFlipX,
        Orient::SwapFlipY,
        Orient::SwapHalf,
    ];

    /// The image of a cell.
    pub fn turn(self, cell: (i32, i32)) -> (i32, i32)
        requires { IsPlace cell }
        ensures { result ≡ turn (orientation self) cell }
    {
        let (x, y) = cell;
        match self {
            Orient::Same => (x, y),
            Orient::FlipX => (-x, y),
            Orient::FlipY => (x, -y),
            Orient::Half => (-x, -y),
            Orient::Swap => (y, x),
            Orient::SwapFlipX => (-y, x),
            Orient::SwapFlipY => (y, -x),
            Orient::SwapHalf => (-y, -x),
        }
    }
}

/// `Orient::ALL` has each of the eight maps exactly once.
pub fn eight_maps()
    ensures each { (m : Orientation) → Contains (map orientation Orient.ALL) m }
    ensures all { length Orient.ALL ≡ 8 }
{}
