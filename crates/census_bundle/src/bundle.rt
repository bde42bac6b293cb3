//! Folders of patterns.
ghost use Rattle.std.specs.Prelude.{◌≡◌, ◌≤◌, ℕ, List, [], IfOk, IsOk, length};

use crate::bytes::Bytes;
use crate::last::{last_len, push_to_last};
use crate::limits::COUNT_LIMIT;
use crate::names::is_lawful_name;
use crate::ticket::Ticket;
use smallvec::SmallVec;
use std::alloc::{AllocError, AllocFailed, Global};
use std::marker::Model;
use thiserror::Error;

/// The greatest length of a text, in bytes, that needs no memory of its own. It is enough for most lines.
const SHORT_LEN: usize = 48;

/// Bytes of a report about a bundle, as a line or a path.
#[derive(Drop)]
pub struct Text {
    bytes: SmallVec<u8, SHORT_LEN>,
}

impl Model for Text {
    ghost Value = { List ℕ };

    ghost view = { λ t. t.bytes.items };
}

impl Text {
    /// A copy of these bytes. It takes no memory where they are at most 48.
    pub fn of(alloc: Global, bytes: &[u8]) -> Result<Text, AllocError>
        ensures copied { IfOk result (λ t. t ≡ bytes.now) }
        ensures short { length bytes.now ≤ 48 → IsOk result }
    {
        Ok(Text {
            bytes: SmallVec::from_slice(alloc, bytes)?,
        })
    }

    /// The bytes.
    pub fn as_slice(&self) -> &[u8]
        ensures { result.now ≡ self.now }
    {
        self.bytes.as_slice()
    }
}

/// One pattern of a folder.
#[derive(Drop)]
pub struct Entry {
    /// Its name.
    pub name: Bytes,
    /// The text that is read as RLE. It isn't examined where it is lost.
    pub text: Bytes,
    /// True where the text is lost, since it couldn't be read.
    pub is_lost: bool,
}

/// The patterns of a folder in order.
#[derive(Drop)]
pub struct Entries {
    items: Vec<Entry>,
}

impl Model for Entries {
    ghost use Rattle.std.specs.Prelude.{List};
    ghost use Rattle.census_bundle.specs.declared.bundle.Entry.{Entry};

    ghost Value = { List Entry };

    ghost view = { λ e. e.items.items };
}

impl Entries {
    ghost use Rattle.std.specs.Prelude.{◌≡◌, [], ◌∷◌, ◌++◌, OnOk, OnErr};

    /// These patterns.
    pub fn of(items: Vec<Entry>) -> Entries
        ensures { result ≡ items.items }
    {
        Entries { items }
    }

    // Adds one more at the end.
    pub(crate) fn push(&mut self, entry: Entry) -> Result<(), AllocError>
        ensures added { OnOk result (self.new ≡ self.old ++ entry ∷ []) }
        ensures unchanged { OnErr result (self.new ≡ self.old) }
    {
        self.items.push(entry)?;
        Ok(())
    }

    /// The patterns in order.
    pub fn as_slice(&self) -> &[Entry]
        ensures { result.now ≡ self.now }
    {
        self.items.as_slice()
    }
}

/// A collection of patterns.
#[derive(Drop)]
pub struct Folder {
    pub name: Bytes,
    pub entries: Entries,
}

// The entry of this name and text, which may be lost.
fn entry_of(alloc: Global, name: &[u8], text: &[u8], is_lost: bool) -> Result<Entry, AllocError>
    ensures { IfOk result
        (λ e. e ≡ record { name = name.now; text = text.now; is_lost = is_lost }) }
{
    let name = Bytes::of(alloc, name)?;
    let text = Bytes::of(alloc, text)?;
    Ok(Entry {
        name,
        text,
        is_lost,
    })
}

// The folder of this name without an entry.
fn folder_of(alloc: Global, name: &[u8]) -> Result<Folder, AllocError>
    ensures { IfOk result (λ f. f ≡ record { name = name.now; entries = [] }) }
{
    let name = Bytes::of(alloc, name)?;
    let entries = Entries::of(Vec::new(alloc));
    Ok(Folder { name, entries })
}

/// The reason why a folder or an entry is not added.
#[derive(Clone, Copy, Debug, PartialEq, Eq, Drop, Error)]
pub enum AddFault {
    /// The name isn't lawful.
    #[error("folder fault 1")]
    BadName,
    /// There is no folder to which the entry could be added.
    #[error("folder fault 2")]
    NoFolder,
    /// There are 65,535 folders, or 65,535 entries in the last folder.
    #[error("folder fault 3")]
    TooMany,
    /// Memory ran out, where nothing else is wrong.
    #[error("out of memory")]
    Memory,
}

impl From<AllocError> for AddFault {
    ghost use Rattle.std.specs.Prelude.{◌≡◌};
    ghost use Rattle.census_bundle.specs.declared.bundle.AddFault.TheVariants.{Memory};

    ghost from_gives = { λ _ e. e ≡ Memory };

    fn from(_: AllocError) -> AddFault {
        AddFault::Memory
    }
}

impl<T: Drop> From<AllocFailed<T>> for AddFault {
    ghost use Rattle.std.specs.Prelude.{◌≡◌};
    ghost use Rattle.census_bundle.specs.declared.bundle.AddFault.TheVariants.{Memory};

    ghost from_gives = { λ _ e. e ≡ Memory };

    fn from(_: AllocFailed<T>) -> AddFault {
        AddFault::Memory
    }
}

/// Folders in order: at most 65,535, each with at most 65,535 patterns. Each name has 1 to 255 bytes, none of them
/// below 32 or equal to 127, the first and the last not blank.
#[derive(Drop)]
pub struct Bundle {
    folders: Vec<Folder>,
}

impl Model for Bundle {
    ghost use Rattle.std.specs.Prelude.{List};
    ghost use Rattle.census_bundle.specs.declared.bundle.Folder.{Folder};
    ghost use Rattle.census_bundle.specs.Sizes.{IsWithinCounts};
    ghost use Rattle.census_bundle.specs.Names.{HasLawfulNames};

    ghost Value = { List Folder };

    ghost view = { λ b. b.folders.items };

    ghost invariant = { λ b. IsWithinCounts b.folders.items × HasLawfulNames b.folders.items };
}

impl Bundle {
    ghost use Rattle.std.specs.Prelude.{◌≡◌, ◌↔◌, ◌≤◌, true, false, [], length, IfSome, IfNone, OnOk, OnErr, Some, None, Err};
    ghost use Rattle.census_bundle.specs.declared.bundle.AddFault.TheVariants.{BadName, NoFolder, TooMany};
    ghost use Rattle.census_bundle.specs.Sizes.{IsWithinCounts, count_limit};
    ghost use Rattle.census_bundle.specs.Names.{HasLawfulNames, is_name};
    ghost use Rattle.census_bundle.specs.Tickets.{entry_at};
    ghost use Rattle.census_bundle.specs.Entries.{entry_of, lost_entry};
    ghost use Rattle.census_bundle.specs.Growing.{with_folder, with_entry, last_entries};

    /// No folder. It takes no memory.
    pub fn empty(alloc: Global) -> Bundle
        ensures { result ≡ [] }
    {
        Bundle {
            folders: Vec::new(alloc),
        }
    }

    /// The folders in order. It takes no memory.
    pub fn folders(&self) -> &[Folder]
        ensures value { result.now ≡ self.now }
        ensures small { IsWithinCounts self.now }
        ensures names { HasLawfulNames self.now }
    {
        self.folders.as_slice()
    }

    /// The pattern of a ticket, or `None` where the bundle has no such place. It takes no memory.
    pub fn entry(&self, ticket: Ticket) -> Option<&Entry>
        ensures some { IfSome result (λ e. entry_at self.now ticket ≡ Some e.now) }
        ensures none { IfNone result (entry_at self.now ticket ≡ None) }
    {
        if ticket.folder == 0 || ticket.number == 0 {
            return None;
        }
        let folder = self.folders.get(ticket.folder as usize - 1)?;
        folder.entries.as_slice().get(ticket.number as usize - 1)
    }

    /// Adds a folder of this name, with no entry, at the end. After a refusal the bundle is unchanged; `Memory` is returned only
    /// where nothing else is wrong.
    pub fn add_folder(&mut self, name: &[u8]) -> Result<(), AddFault>
        ensures added { OnOk result (self.new ≡ with_folder self.old name.now) }
        ensures unchanged { OnErr result (self.new ≡ self.old) }
        ensures bad_name { (result ≡ Err BadName) ↔ (is_name name.now ≡ false) }
        ensures no_folder { result ≡ Err NoFolder → ⊥ }
        ensures too_many { (result ≡ Err TooMany) ↔
            ((is_name name.now ≡ true) × (count_limit ≤ length self.old)) }
    {
        if !is_lawful_name(name) {
            return Err(AddFault::BadName);
        }
        if self.folders.len() >= COUNT_LIMIT {
            return Err(AddFault::TooMany);
        }
        let folder = folder_of(*self.folders.allocator(), name)?;
        self.folders.push(folder)?;
        Ok(())
    }

    // Adds an entry of this name and text, which may be lost, at the end of the last folder.
    fn add(&mut self, name: &[u8], text: &[u8], is_lost: bool) -> Result<(), AddFault>
        ensures added { OnOk result
            (self.new ≡
            with_entry self.old (record { name = name.now; text = text.now; is_lost = is_lost })) }
        ensures unchanged { OnErr result (self.new ≡ self.old) }
        ensures bad_name { (result ≡ Err BadName) ↔ (is_name name.now ≡ false) }
        ensures no_folder { (result ≡ Err NoFolder) ↔
            ((is_name name.now ≡ true) × (self.old ≡ [])) }
        ensures too_many { (result ≡ Err TooMany) ↔
            ((is_name name.now ≡ true) × (count_limit ≤ length (last_entries self.old))) }
    {
        if !is_lawful_name(name) {
            return Err(AddFault::BadName);
        }
        if self.folders.is_empty() {
            return Err(AddFault::NoFolder);
        }
        if last_len(&self.folders) >= COUNT_LIMIT {
            return Err(AddFault::TooMany);
        }
        let entry = entry_of(*self.folders.allocator(), name, text, is_lost)?;
        push_to_last(&mut self.folders, entry)?;
        Ok(())
    }

    /// Adds an entry of this name and text at the end of the last folder. After a refusal the bundle is unchanged; `Memory` is
    /// returned only where nothing else is wrong.
    pub fn add_entry(&mut self, name: &[u8], text: &[u8]) -> Result<(), AddFault>
        ensures added { OnOk result (self.new ≡ with_entry self.old (entry_of name.now text.now)) }
        ensures unchanged { OnErr result (self.new ≡ self.old) }
        ensures bad_name { (result ≡ Err BadName) ↔ (is_name name.now ≡ false) }
        ensures no_folder { (result ≡ Err NoFolder) ↔
            ((is_name name.now ≡ true) × (self.old ≡ [])) }
        ensures too_many { (result ≡ Err TooMany) ↔
            ((is_name name.now ≡ true) × (count_limit ≤ length (last_entries self.old))) }
    {
        self.add(name, text, false)
    }

    /// Adds an entry of this name, whose text is lost, at the end of the last folder. After a refusal the bundle is unchanged;
    /// `Memory` is returned only where nothing else is wrong.
    pub fn add_lost(&mut self, name: &[u8]) -> Result<(), AddFault>
        ensures added { OnOk result (self.new ≡ with_entry self.old (lost_entry name.now)) }
        ensures unchanged { OnErr result (self.new ≡ self.old) }
        ensures bad_name { (result ≡ Err BadName) ↔ (is_name name.now ≡ false) }
        ensures no_folder { (result ≡ Err NoFolder) ↔
            ((is_name name.now ≡ true) × (self.old ≡ [])) }
        ensures too_many { (result ≡ Err TooMany) ↔
            ((is_name name.now ≡ true) × (count_limit ≤ length (last_entries self.old))) }
    {
        self.add(name, b"", true)
    }
}
