//! Sums of bits at 64 places at once.
ghost use Rattle.std.specs.Prelude.{◌≡◌, ℕ, ◌+◌, ◌==◌, if◌then◌else◌};
ghost use Rattle.std.specs.Int.{bit_at};
ghost use Rattle.life_plane.specs.Sums.{sum_at};

/// At each place a number from 0 to 3: bit `j` of `ones` and twice bit `j` of `twos`.
#[derive(Clone, Copy, PartialEq, Eq, Debug)]
pub struct Sum {
    pub ones: u64,
    pub twos: u64,
}

/// Two bits added at each place.
#[inline(always)]
pub fn half_adder(a: u64, b: u64) -> Sum
    ensures { (j : ℕ) → sum_at result j ≡ bit_at a j + bit_at b j }
{
    Sum {
        ones: a ^ b,
        twos: a & b,
    }
}

/// Three bits added at each place.
#[inline(always)]
pub fn full_adder(a: u64, b: u64, c: u64) -> Sum
    ensures { (j : ℕ) → sum_at result j ≡ bit_at a j + bit_at b j + bit_at c j }
{
    let part = a ^ b;
    Sum {
        ones: part ^ c,
        twos: (a & b) | (part & c),
    }
}

/// At each place the bit of `high` where `bit` is set, and otherwise the bit of `low`.
#[inline(always)]
pub fn choose(bit: u64, low: u64, high: u64) -> u64
    ensures { (j : ℕ) →
        bit_at result j ≡ (if bit_at bit j == 1 then bit_at high j else bit_at low j) }
{
    low ^ (bit & (low ^ high))
}
