//! The source that folders are read from.
ghost use Rattle.std.specs.Prelude.{◌≡◌, ◌≤◌, ℕ, Bool, true, false, List, [], Ok, IfOk, IfErr, vec_len};
ghost use Rattle.census_folders.specs.Tellings.{Tellings, tells_nothing};
ghost use Rattle.census_folders.specs.Told.{GivesTold, MayFail, RefusesFile, RefusesList, silent};

use crate::unread::ShelfFault;
use std::alloc::Global;

/// A shelf of folders, each with files. It may promise what is on it: the names in a folder, the bytes of a file in a folder,
/// or that one of these can't be read. A disk promises nothing.
pub trait Shelf {
    // Its promises: the names in the folder with a path, each ended by a byte 0; the names of the folders in that folder, each
    // ended by a byte 0, where a link to a folder does not count; and the bytes of the file with a name in the folder with a
    // path.
    ghost tellings: { Self → Tellings } = { λ _. tells_nothing };

    // True where the file with this name in the folder with this path may be opened: it is a regular file, or a link to one.
    ghost may_open: { Self → List ℕ → List ℕ → Bool } = { λ _ _ _. true };

    /// The names in a folder, each ended by a byte 0.
    fn list(&self, alloc: Global, folder: &str) -> Result<Vec<u8>, ShelfFault>
        ensures told { IfOk result
            (λ bytes. GivesTold ((tellings self.now).listed folder.now) bytes.items) }
        ensures fault { IfErr result (RefusesList ((tellings self.now).listed folder.now)) };

    /// The names of the folders in a folder, each ended by a byte 0. Links to folders are left out. A name that the shelf can't
    /// look up may be among them, since it may be that of a folder.
    fn list_folders(&self, alloc: Global, folder: &str) -> Result<Vec<u8>, ShelfFault>
        ensures told { IfOk result
            (λ bytes. GivesTold ((tellings self.now).inner folder.now) bytes.items) }
        ensures fault { IfErr result (RefusesList ((tellings self.now).inner folder.now)) };

    /// True where a name in a folder is that of a regular file, or of a link to one. Nothing is opened.
    fn is_file(&self, alloc: Global, folder: &str, name: &[u8]) -> Result<bool, ShelfFault>
        ensures yes { result ≡ Ok true → may_open self.now folder.now name.now ≡ true }
        ensures no { result ≡ Ok false → MayFail ((tellings self.now).held folder.now name.now) silent }
        ensures fault { IfErr result (RefusesList ((tellings self.now).held folder.now name.now)) };

    /// The bytes of a file in a folder, of which there may be at most `limit`.
    fn read(
        &self,
        alloc: Global,
        folder: &str,
        name: &[u8],
        limit: usize,
    ) -> Result<Vec<u8>, ShelfFault>
        requires { may_open self.now folder.now name.now ≡ true }
        ensures within { IfOk result (λ bytes. vec_len bytes ≤ limit) }
        ensures told { IfOk result
            (λ bytes. GivesTold ((tellings self.now).held folder.now name.now) bytes.items) }
        ensures fault { IfErr result
            (RefusesFile limit ((tellings self.now).held folder.now name.now)) };

    /// The bytes of the file with a path, of which there may be at most `limit`. It may be anything that can be read, such as a
    /// pipe.
    fn read_named(&self, alloc: Global, path: &[u8], limit: usize) -> Result<Vec<u8>, ShelfFault>
        ensures within { IfOk result (λ bytes. vec_len bytes ≤ limit) }
        ensures told { IfOk result
            (λ bytes. GivesTold ((tellings self.now).held [] path.now) bytes.items) }
        ensures fault { IfErr result (RefusesFile limit ((tellings self.now).held [] path.now)) };
}
