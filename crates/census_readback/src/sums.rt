//! Objects, each with how many there are of it.
ghost use Rattle.std.specs.Prelude.{◌≡◌, [], ◌+◌, ◌<◌, ◌^◌, ◌++◌, IsFalse, IsTrue, Some, length, slice_get, OnOk};
ghost use Rattle.std.specs.Prelude.{List};
ghost use Rattle.census_readback.specs.Counts.{Object as Counted, Sum, is_counted, sum_with, with_more};

use indexmap::IndexMap;
use std::alloc::{AllocError, Global};
use std::hash::{Hash, Hasher};
use std::marker::Model;

// The first `FEW` objects are looked through one by one. Only those after them are kept in a map, which takes far more memory:
// tens of thousands of collections may be open at once.
const FEW: usize = 8;

// A rule, and the code of an object under it, as they are printed.
#[derive(Drop)]
pub struct Object<'a> {
    rule: &'a [u8],
    code: &'a [u8],
}

impl<'a> Model for Object<'a> {
    ghost use Rattle.census_readback.specs.Counts as counts;
    ghost use Rattle.census_readback.specs.ObjectCode.{object_code};

    ghost Value = { counts.Object };

    ghost coded = { object_code };

    ghost view = { λ o. record { rule = o.rule.now; code = o.code.now } };
}

impl<'a> PartialEq for Object<'a> {
    ghost use Rattle.census_readback.specs.Counts.{same_object};
    ghost use Rattle.census_readback.specs.ObjectLaws.{same_object_partial};

    ghost eq = { same_object };

    ghost laws = { same_object_partial };

    fn eq(&self, other: &Object<'a>) -> bool {
        self.code == other.code && self.rule == other.rule
    }
}

impl<'a> Eq for Object<'a> {
    ghost use Rattle.census_readback.specs.ObjectLaws.{same_object_equivalence};

    ghost laws = { same_object_equivalence };
}

impl<'a> Hash for Object<'a> {
    ghost use Rattle.census_readback.specs.ObjectLaws.{fed_object, same_object_fed};

    ghost hash_input = { fed_object };

    ghost respects_eq = { same_object_fed };

    fn hash<H: Hasher>(&self, state: &mut H) {
        self.rule.hash(state);
        self.code.hash(state);
    }
}

impl<'a> Object<'a> {
    ghost use Rattle.std.specs.Prelude.{◌≡◌};
    ghost use Rattle.census_readback.specs.Counts.{object};

    pub fn of(rule: &'a [u8], code: &'a [u8]) -> Object<'a>
        ensures { result ≡ object rule.now code.now }
    {
        Object { rule, code }
    }
}

// With `count` more, if 64 bits hold the number.
fn sum_with(sum: Option<u64>, count: u64) -> Option<u64>
    ensures { result ≡ sum_with sum count }
{
    sum?.checked_add(count)
}

// Counts an object `count` more times.
fn count_object<'a>(
    sums: &mut IndexMap<Object<'a>, Option<u64>>,
    object: Object<'a>,
    count: u64,
) -> Result<(), AllocError>
    ensures { OnOk result (sums.new.entries ≡ with_more object.entry count sums.old.entries) }
{
    let sum = sums.entry(object)?.or_insert(Some(0));
    *sum = sum_with(*sum, count);
    Ok(())
}

// Whether this is the object, and there are `count` of it.
fn is_counted<'a>(counted: &Object<'a>, sum: &Option<u64>, object: &Object<'a>, count: u64) -> bool
    ensures { result ≡ is_counted (Some (counted.now, sum.now)) object.now count }
{
    *counted == *object && *sum == Some(count)
}

// Whether the object of a map at this index is this one, and there are `count` of it.
fn has<'a>(
    sums: &IndexMap<Object<'a>, Option<u64>>,
    index: usize,
    object: &Object<'a>,
    count: u64,
) -> bool
    ensures value { result ≡ is_counted (slice_get sums.now.entries index) object.now count }
    ensures within { IsTrue result → index < 2 ^ 63 }
{
    if sums.len() <= index {
        return false;
    }
    match sums.get_index(index) {
        Some((counted, sum)) => is_counted(counted, sum, object, count),
        None => false,
    }
}

// Counts an object `count` more times if it is one of these, and returns whether it is.
fn count_among<'a>(
    counted: &mut [(Object<'a>, Option<u64>)],
    object: &Object<'a>,
    count: u64,
) -> bool
    ensures yes { IsTrue result → (rest : List (Counted × Sum))
        → with_more object.now count (counted.old ++ rest) ≡ counted.new ++ rest }
    ensures no { IsFalse result → (rest : List (Counted × Sum))
        → with_more object.now count (counted.old ++ rest)
        ≡ counted.new ++ with_more object.now count rest }
{
    for at in 0..counted.len() {
        if *object == counted[at].0 {
            counted[at].1 = sum_with(counted[at].1, count);
            return true;
        }
    }
    false
}

// The objects that were counted, each once, in the order of first appearance, and how many there are of each, if 64 bits hold
// the number.
#[derive(Drop)]
pub struct Sums<'a> {
    first: Vec<(Object<'a>, Option<u64>)>,
    // Those after the first, if there are more than `FEW`.
    rest: Option<Box<IndexMap<Object<'a>, Option<u64>>>>,
}

impl<'a> Model for Sums<'a> {
    ghost use Rattle.std.specs.Prelude.{◌++◌, [], List, None, Some};
    ghost use Rattle.census_readback.specs.Counts.{Object, Sum};

    ghost Value = { List (Object × Sum) };

    ghost view = { λ s. s.first.items ++ elim s.rest [ None ↦ [] | Some m ↦ m.value.entries ] };
}

impl<'a> Sums<'a> {
    // No objects.
    pub fn nothing(alloc: Global) -> Self
        ensures { result ≡ [] }
    {
        Sums {
            first: Vec::new(alloc),
            rest: None,
        }
    }

    // Counts an object `count` more times.
    pub fn count(&mut self, alloc: Global, object: Object<'a>, count: u64) -> Result<(), AllocError>
        ensures { OnOk result (self.new ≡ with_more object.entry count self.old) }
    {
        if count_among(self.first.as_mut_slice(), &object, count) {
            return Ok(());
        }
        match &mut self.rest {
            Some(map) => count_object(map.as_mut(), object, count),
            None if self.first.len() < FEW => {
                self.first.reserve_exact(1)?;
                self.first.push((object, sum_with(Some(0), count)))?;
                Ok(())
            }
            None => {
                let mut map = IndexMap::new(alloc);
                count_object(&mut map, object, count)?;
                self.rest = Some(Box::new(alloc, map)?);
                Ok(())
            }
        }
    }

    // Whether the object at this index is this one, and there are `count` of it.
    pub fn has(&self, index: usize, object: Object<'a>, count: u64) -> bool
        ensures value { result ≡ is_counted (slice_get self.now index) object.entry count }
        ensures within { IsTrue result → index + 1 < 2 ^ 64 }
    {
        if index < self.first.len() {
            let (counted, sum) = &self.first[index];
            return is_counted(counted, sum, &object, count);
        }
        match &self.rest {
            Some(map) => has(map.as_ref(), index - self.first.len(), &object, count),
            None => false,
        }
    }

    // How many objects there are.
    pub fn len(&self) -> usize
        ensures { result ≡ length self.now }
    {
        let rest = match &self.rest {
            Some(map) => map.len(),
            None => 0,
        };
        self.first.len() + rest
    }
}
