//! Codes and their names.
ghost use Rattle.std.specs.Prelude.{◌≡◌, ◌++◌, [], ◌∷◌, if◌then◌else◌, is_none, map, true, IfOk, None, OnOk, Some};
ghost use Rattle.std.specs.Option.{option_copied};
ghost use Rattle.census_facts.specs.Names.{entry, may_add, name_in, with_entry};
ghost use Rattle.census_facts.specs.Read.{entry_read};

use indexmap::IndexMap;
use std::alloc::{AllocError, Global};
use std::marker::Model;

/// Codes, each with a name, in the order of the text that they were read from. No code appears twice.
#[derive(Drop)]
pub struct Names {
    names: IndexMap<Vec<u8>, Vec<u8>>,
}

impl Model for Names {
    ghost use Rattle.std.specs.Prelude.{List, map};
    ghost use Rattle.census_facts.specs.Names.{Entry};
    ghost use Rattle.census_facts.specs.Read.{entry_read};

    ghost Value = { List Entry };

    ghost view = { λ n. map entry_read n.names.entries };
}

// Keeps a new code and its name.
fn keep(
    kept: &mut IndexMap<Vec<u8>, Vec<u8>>,
    alloc: Global,
    code: &[u8],
    name: &[u8],
) -> Result<(), AllocError>
    requires { is_none (name_in (map entry_read kept.old.entries) code.now) ≡ true }
    ensures { OnOk result (map entry_read kept.new.entries
        ≡ map entry_read kept.old.entries ++ entry code.now name.now ∷ []) }
{
    kept.insert(Vec::from_slice(alloc, code)?, Vec::from_slice(alloc, name)?)?;
    Ok(())
}

impl Names {
    /// No names.
    pub fn none(alloc: Global) -> Names
        ensures { result ≡ [] }
    {
        Names {
            names: IndexMap::new(alloc),
        }
    }

    /// The name of a code, if it has one. The work does not grow with the number of names.
    pub fn name_of(&self, code: &[u8]) -> Option<&[u8]>
        ensures { option_copied result ≡ name_in self.now code.now }
    {
        match self.names.get(code) {
            Some(name) => Some(name.as_slice()),
            None => None,
        }
    }

    // True where a code and a name are not empty, and no entry has the code.
    fn may_add(&self, code: &[u8], name: &[u8]) -> bool
        ensures { result ≡ may_add self.now (entry code.now name.now) }
    {
        !code.is_empty() && !name.is_empty() && self.name_of(code).is_none()
    }

    /// Adds a code with its name. Returns true if neither is empty and no entry has the code; otherwise nothing is added. The
    /// only error is out of memory.
    pub fn add(&mut self, alloc: Global, code: &[u8], name: &[u8]) -> Result<bool, AllocError>
        ensures { IfOk result (λ added. with_entry self.old (entry code.now name.now)
            ≡ (if added then Some self.new else None)) }
    {
        if !self.may_add(code, name) {
            return Ok(false);
        }
        keep(&mut self.names, alloc, code, name)?;
        Ok(true)
    }
}
