//! The lengths of parts of texts.
ghost use Rattle.std.specs.Prelude.{◌≡◌, ◌<◌, ◌≤◌, length};
ghost use Rattle.life_cells.specs.Dots.{strip_mark};
ghost use Rattle.life_cells.specs.Wechsler.{short_zeros, zeros};

/// The lengths of a text, read from either side.
#[derive(Clone, Copy)]
pub struct Lengths {
    pub forward: usize,
    pub backward: usize,
}

impl Lengths {
    /// The lesser of the two.
    pub fn least(self) -> usize {
        self.forward.min(self.backward)
    }

    /// The lengths for the mirror image.
    pub fn mirrored(self) -> Lengths
        ensures forward { result.forward ≡ self.backward }
        ensures backward { result.backward ≡ self.forward }
    {
        Lengths {
            forward: self.backward,
            backward: self.forward,
        }
    }
}

/// The length of the text of fewer than 39 zeros.
fn short_length(count: usize) -> usize
    requires { count < 39 }
    ensures length { result ≡ length (short_zeros count) }
    ensures small { result ≤ count }
{
    match count {
        0 => 0,
        1..=3 => 1,
        _ => 2,
    }
}

/// The length of the text of `count` zeros.
pub fn zeros_length(count: usize) -> usize
    ensures length { result ≡ length (zeros count) }
    ensures small { result ≤ count }
{
    if count < 39 {
        short_length(count)
    } else {
        2 * (count / 39) + short_length(count % 39)
    }
}

/// The length of the mark before a strip.
pub fn mark_length(strip: usize) -> usize
    ensures length { result ≡ length (strip_mark strip) }
    ensures small { result ≤ 1 }
{
    if strip > 0 { 1 } else { 0 }
}
