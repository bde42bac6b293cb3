//! The pattern files that a folder lists.
ghost use Rattle.std.specs.Prelude.{◌≡◌, ◌∷◌, ◌<◌, [], length, map, IfOk, IfSome};
ghost use Rattle.std.specs.List.{slice_split};
ghost use Rattle.std.specs.Option.{option_map_or};
ghost use Rattle.census_folders.specs.Listings.{IsChosen, is_end, is_pattern_name};

use memchr::memchr;
use std::alloc::{AllocError, Global};

// True where a name ends in `.rle`.
fn is_pattern_name(name: &[u8]) -> bool
    ensures { result ≡ is_pattern_name name.now }
{
    name.ends_with(b".rle")
}

// The name before the first byte 0, and the rest after that byte, if there is one.
pub fn split_name(listing: &[u8]) -> (&[u8], Option<&[u8]>)
    ensures parts { slice_split is_end listing.now
        ≡ result.0.now ∷ option_map_or (λ rest. slice_split is_end rest.now) result.1 [] }
    ensures shorter { IfSome result.1 (λ rest. length rest.now < length listing.now) }
{
    match memchr(0, listing) {
        Some(at) => (&listing[..at], Some(&listing[at + 1..])),
        None => (listing, None),
    }
}

// The names that end in `.rle`, among names separated by a byte 0, in the order of their bytes.
pub fn pattern_names(alloc: Global, listing: &[u8]) -> Result<Vec<Vec<u8>>, AllocError>
    ensures { IfOk result (λ names. IsChosen listing.now (map (λ name. name.items) names.items)) }
{
    let mut names = Vec::new(alloc);
    let mut left = Some(listing);
    while let Some(rest) = left {
        let (name, behind) = split_name(rest);
        if is_pattern_name(name) {
            names.push(name.to_vec(alloc)?)?;
        }
        left = behind;
    }
    names.sort()?;
    Ok(names)
}
