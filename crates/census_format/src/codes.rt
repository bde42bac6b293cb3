//! The meaning of the counts of a closing.
ghost use Rattle.census_format.specs.ObjectCounts.{CodesCountObjects};
ghost use Rattle.census_format.specs.PartCounts.{CodesCountParts};

/// Each `code` line of a collection counts one object: its number is that of the collection's patterns that settle into that
/// object under the line's rule, with no generation up to the bound that is too large. Each pattern that resolves has exactly
/// one line of its rule and code.
pub fn codes_count_objects()
    ensures { CodesCountObjects }
{}

/// If objects are asked for, the number of each `code` line of a collection is that of the objects with the line's rule and
/// code that are counted of the patterns of the collection that have fallen apart. It is at least 1. Each rule and code of
/// such an object has exactly one line. This holds whether cells that are near one another count as one object, or
/// independent parts are counted.
pub fn codes_count_parts()
    ensures { CodesCountParts }
{}
