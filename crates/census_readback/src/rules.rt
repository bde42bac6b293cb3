//! Rules as they are printed.
ghost use Rattle.std.specs.Prelude.{◌≡◌};
ghost use Rattle.std.specs.Option.{option_copied};
ghost use Rattle.census_readback.specs.Rules.{after_births, after_rising, is_rule};

use life_cells::after_byte;

// What follows the digits that rise, from `first` up to `8`.
fn after_rising(first: u8, text: &[u8]) -> &[u8]
    ensures { result.now ≡ after_rising first text.now }
{
    let mut least = first;
    let mut rest = text;
    while let [byte, bytes @ ..] = rest {
        if *byte < least || b'8' < *byte {
            return rest;
        }
        least = *byte + 1;
        rest = bytes;
    }
    rest
}

// What follows `B`, the digits of the births and `/S`.
fn after_births(text: &[u8]) -> Option<&[u8]>
    ensures { option_copied result ≡ after_births text.now }
{
    let births = after_byte(text, b'B')?;
    let rest = after_byte(after_rising(b'1', births), b'/')?;
    after_byte(rest, b'S')
}

/// Whether a text is a rule as it is printed: `B`, the numbers of births rising from 1 on, `/S`, the
/// numbers of survivals rising.
pub fn is_rule(text: &[u8]) -> bool
    ensures { result ≡ is_rule text.now }
{
    match after_births(text) {
        Some(survivals) => after_rising(b'0', survivals).is_empty(),
        None => false,
    }
}
