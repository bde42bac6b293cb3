//! Marks for the bands of a tile.
ghost use Rattle.std.specs.Prelude.{◌≡◌, ℕ, ◌<◌, ◌≤◌, max, true};
ghost use Rattle.std.specs.Int.{bit_at};

/// The marked ones among the eight bands of a tile. Band `k` is rows `8 * k` to `8 * k + 7`, and its mark is bit `k`.
#[derive(Clone, Copy)]
pub struct Bands {
    pub bits: u8,
}

impl Bands {
    /// No band.
    pub const NONE: Bands = Bands { bits: 0 };

    /// All eight bands.
    pub const ALL: Bands = Bands { bits: 255 };

    /// True where no band is marked.
    pub fn is_empty(self) -> bool
        ensures { result ≡ true → (k : ℕ) → bit_at self.bits k ≡ 0 }
    {
        self.bits == 0
    }

    /// The first marked band from a band on, or 8 if there is none.
    pub fn first_from(self, band: usize) -> usize
        requires { band ≤ 8 }
        ensures small { result ≤ 8 }
        ensures from { band ≤ result }
        ensures marked { result < 8 → bit_at self.bits result ≡ 1 }
        ensures between { (k : ℕ) → band ≤ k → k < result → bit_at self.bits k ≡ 0 }
    {
        let rest = u32::from(self.bits) >> band;
        if rest == 0 {
            8
        } else {
            band + rest.trailing_zeros() as usize
        }
    }

    /// These bands together with others.
    pub fn union(self, others: Bands) -> Bands
        ensures { (k : ℕ) → bit_at result.bits k ≡ max (bit_at self.bits k) (bit_at others.bits k) }
    {
        Bands {
            bits: self.bits | others.bits,
        }
    }
}
