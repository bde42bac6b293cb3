//! The disk as a shelf.
//!
//! Tested in `checks/disk`: names that are not UTF-8, files and folders without permission to read, changes in the meantime,
//! and signals.
ghost use Rattle.std.specs.Prelude.{◌≡◌, ◌↔◌, ◌<◌, ◌≤◌, length, vec_len, Err, IfErr, IfOk, IfSome, IsErr, IsTrue, MatchResult, OnErr};
ghost use Rattle.std.specs.Fs.{IsFile, file_type};
ghost use Rattle.std.specs.Path.{path_buf_bytes, path_join};
ghost use Rattle.census_folders.specs.Told.{RefusesList, Untold};

use crate::listing::split_name;
use crate::shelf::Shelf;
use crate::unread::{ShelfFault, Unread};
use std::alloc::Global;
use std::fs::{Metadata, OpenFile};
use std::io::{BufReader, ErrorKind, Read};
use std::path::{Path, PathBuf};
use std::rt::Files;
use std::{fs, io};
use watched::{Input, read_all};

/// The number of retries of a system call that a signal interrupts.
const TRIES: u32 = 1_000;

/// The number of the system's error for reading a folder as a file.
const IS_FOLDER: i32 = 21;

// The result of a system call, which is retried if a signal interrupts it.
fn answered<T: Drop, F: Fn() -> io::Result<T>>(ask: F) -> io::Result<T>
    requires { F.IsAlwaysCallable ask }
{
    for _ in 0..TRIES {
        match ask() {
            Err(error) if error.kind() == ErrorKind::Interrupted => {}
            answer => return answer,
        }
    }
    ask()
}

// The fault for an error of the system: out of memory where the system is, otherwise unread.
fn fault_of(error: io::Error) -> ShelfFault
    ensures { RefusesList Untold result }
{
    match error.kind() {
        ErrorKind::OutOfMemory => ShelfFault::Memory,
        _ => ShelfFault::Unread(Unread {
            code: error.raw_os_error(),
            is_file: false,
        }),
    }
}

// The bytes of an opened file, up to its end, of which there may be at most `limit`.
fn read_opened<F: Read + Drop>(
    alloc: Global,
    opened: io::Result<F>,
    limit: usize,
) -> Result<Vec<u8>, ShelfFault>
    ensures within { IfOk result (λ bytes. vec_len bytes ≤ limit) }
    ensures whole { IfOk opened
        (λ file. IfOk result (λ bytes. IfSome (F.remaining file) (λ all. bytes.items ≡ all))) }
    ensures too_long { IfOk opened
        (λ file. result ≡ Err ShelfFault.TooLong →
        IfSome (F.remaining file) (λ all. limit < length all)) }
    ensures unopened { OnErr opened (IfErr result (RefusesList Untold) × IsErr result) }
{
    match opened {
        Ok(file) => Ok(read_all(alloc, &mut Input::new(file), limit)?),
        Err(error) => Err(fault_of(error)),
    }
}

// All the bytes of an opened file or folder. It is read by 8192 bytes or more at a time, since listing a folder needs room for
// a name.
fn list_opened<F: Read + Drop>(alloc: Global, opened: io::Result<F>) -> io::Result<Vec<u8>>
    ensures whole { IfOk opened
        (λ file. IfOk result (λ bytes. IfSome (F.remaining file) (λ all. bytes.items ≡ all))) }
    ensures unopened { OnErr opened (IsErr result) }
{
    let mut folder = BufReader::new(alloc, opened?)?;
    let mut names = Vec::new(alloc);
    folder.read_to_end(&mut names)?;
    Ok(names)
}

// True where the metadata is that of a regular file.
fn is_regular(found: io::Result<Metadata>) -> Result<bool, ShelfFault>
    ensures found { IfOk found
        (λ metadata. MatchResult result (λ yes. IsTrue yes ↔ IsFile (file_type metadata))
        (λ _. ⊥)) }
    ensures missing { OnErr found (IsErr result) }
    ensures fault { IfErr result (RefusesList Untold) }
{
    match found {
        Ok(metadata) => Ok(metadata.is_file()),
        Err(error) => Err(fault_of(error)),
    }
}

// The path of a name in a folder. Paths are UTF-8 here, so a name that is not has none.
fn path_in(alloc: Global, folder: &str, name: &[u8]) -> Result<PathBuf, ShelfFault>
    ensures path { IfOk result (λ path. path_buf_bytes path ≡ path_join folder.now name.now) }
    ensures fault { IfErr result (RefusesList Untold) }
{
    let Ok(name) = str::from_utf8(name) else {
        return Err(ShelfFault::Unread(Unread::silent()));
    };
    Ok(Path::new(folder).join(alloc, name)?)
}

// True where a name is empty, or that of the folder itself or of its parent.
fn is_own(name: &[u8]) -> bool {
    name.is_empty() || name == b".".as_slice() || name == b"..".as_slice()
}

// True where a name whose kind can't be determined is taken for that of a folder, so that the walk reports it as lost. A name
// that ends in `.rle` is reported as lost when the folder with this name in it is read.
fn is_taken_for_folder(name: &[u8]) -> bool {
    !name.ends_with(b".rle")
}

// True where a name in a folder is that of a folder, or is taken for one: a name that is not UTF-8 can't be looked up, and
// another may have been removed. A link is not a folder, whatever it leads to.
fn is_folder<R: Files>(
    files: &R,
    alloc: Global,
    folder: &str,
    name: &[u8],
) -> Result<bool, ShelfFault>
    ensures fault { IfErr result (RefusesList Untold) }
{
    if str::from_utf8(name).is_err() {
        return Ok(is_taken_for_folder(name));
    }
    let path = path_in(alloc, folder, name)?;
    match answered(|| fs::symlink_metadata(files, path.as_path())) {
        Ok(metadata) => Ok(metadata.is_dir()),
        Err(error) if error.kind() == ErrorKind::NotFound => Ok(is_taken_for_folder(name)),
        Err(error) => Err(fault_of(error)),
    }
}

// The opened file, if it is a regular one. Anything that has replaced it since it was checked is refused.
fn regular_file<F: OpenFile + Drop>(opened: io::Result<F>) -> io::Result<F> {
    let file = opened?;
    if answered(|| file.metadata())?.is_file() {
        Ok(file)
    } else {
        Err(io::Error::from(ErrorKind::InvalidInput))
    }
}

// The opened file, unless it is a folder, which the system reports only once it is read.
fn named_file<F: OpenFile + Drop>(opened: io::Result<F>) -> io::Result<F> {
    let file = opened?;
    if answered(|| file.metadata())?.is_dir() {
        Err(io::Error::from_raw_os_error(IS_FOLDER))
    } else {
        Ok(file)
    }
}

// The names in a folder, each ended by a byte 0. The list of a folder that is removed meanwhile ends early, so this checks
// whether the folder is still there.
fn names_at<R: Files>(files: &R, alloc: Global, path: Path) -> io::Result<Vec<u8>> {
    let names = list_opened(alloc, answered(|| files.open_dir(path.as_str())))?;
    answered(|| fs::metadata(files, path))?;
    Ok(names)
}

// The fault for a folder with this path that can't be listed, by the error. Where there is something other than a folder, the
// fault has no number, and says whether it is a file.
fn unlisted<R: Files>(files: &R, alloc: Global, folder: &str, error: io::Error) -> ShelfFault
    ensures { RefusesList Untold result }
{
    if error.kind() != ErrorKind::NotADirectory {
        return fault_of(error);
    }
    let path = match path_in(alloc, "", folder.as_bytes()) {
        Ok(path) => path,
        Err(fault) => return fault,
    };
    match answered(|| fs::metadata(files, path.as_path())) {
        Ok(found) => ShelfFault::Unread(Unread {
            code: None,
            is_file: found.is_file(),
        }),
        Err(error) => fault_of(error),
    }
}

impl<R: Files> Shelf for R {
    fn list(&self, alloc: Global, folder: &str) -> Result<Vec<u8>, ShelfFault> {
        // A path that ends in a slash is that of a folder, even through a link.
        let path = path_in(alloc, folder, b"")?;
        match names_at(self, alloc, path.as_path()) {
            Ok(names) => Ok(names),
            Err(error) => Err(unlisted(self, alloc, folder, error)),
        }
    }

    fn list_folders(&self, alloc: Global, folder: &str) -> Result<Vec<u8>, ShelfFault> {
        let listing = self.list(alloc, folder)?;
        let mut folders = Vec::new(alloc);
        let mut left = Some(listing.as_slice());
        while let Some(rest) = left {
            let (name, behind) = split_name(rest);
            if !is_own(name) && is_folder(self, alloc, folder, name)? {
                folders.extend_from_slice(name)?;
                folders.extend_from_slice(b"\0")?;
            }
            left = behind;
        }
        Ok(folders)
    }

    fn is_file(&self, alloc: Global, folder: &str, name: &[u8]) -> Result<bool, ShelfFault> {
        let path = path_in(alloc, folder, name)?;
        is_regular(answered(|| fs::metadata(self, path.as_path())))
    }

    fn read(
        &self,
        alloc: Global,
        folder: &str,
        name: &[u8],
        limit: usize,
    ) -> Result<Vec<u8>, ShelfFault> {
        let path = path_in(alloc, folder, name)?;
        read_opened(alloc, regular_file(fs::open(self, path)), limit)
    }

    fn read_named(&self, alloc: Global, path: &[u8], limit: usize) -> Result<Vec<u8>, ShelfFault> {
        let path = path_in(alloc, "", path)?;
        read_opened(alloc, named_file(fs::open(self, path)), limit)
    }
}
