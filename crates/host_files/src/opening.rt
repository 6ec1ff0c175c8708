//! How files are opened and made: for their user alone, and over no link where the system can be asked to refuse one.

ghost use Rattle.std.specs.Prelude.{◌≡◌, ◌↔◌, ◌⊎◌, true, pos, Err, IsOk, IfErr, OnErr, IsTrue};
ghost use Rattle.std.specs.Fs.{new_options, with_read, with_write, with_create_new, file_type, IsDir, IsFile};
ghost use Rattle.std.specs.declared.io.ErrorKind.TheVariants.{PermissionDenied, ReadOnlyFilesystem};
ghost use Rattle.host_files.specs.Names.{IsOnlyRead};
ghost use Rattle.host_files.specs.declared.fault.Fault.TheVariants as faults;
ghost use Rattle.host_files.specs.declared.reason.Reason.TheVariants as reasons;

use crate::fault::Fault;
use crate::reason::{IS_A_FOLDER, Reason};
use crate::system::{folder_of, pass_missing, remove};
use cache_types::Name;
use std::fs::{self, DirBuilder, File, Metadata, OpenOptions};
use std::io::{self, ErrorKind};
use std::os::unix::fs::{DirBuilderExt, OpenOptionsExt};
use std::rt::Files as RealFiles;

/// Files are read and written by their user alone.
const FILE_MODE: u32 = 0o600;

/// Folders are looked into by their user alone.
const FOLDER_MODE: u32 = 0o700;

/// The file of a name and its path, where there is one: for reading alone where no seat ever writes into it, and else for
/// writing too.
pub fn open_old<R: RealFiles<File = File>>(
    rt: &R,
    name: &Name,
    path: &str,
) -> Result<Option<File>, Fault> {
    if is_only_read(name) {
        found(OpenOptions::new().read(true).open(rt, path))
    } else {
        open_to_write(rt, path)
    }
}

/// The file of a name and its path, for reading and writing, or a new empty one in folders that are made where they are
/// missing. A temporary file mostly isn't there, another mostly is: so each takes one call of the system.
pub fn open_new<R: RealFiles<File = File>>(rt: &R, name: &Name, path: &str) -> Result<File, Fault> {
    match name {
        Name::Temp { .. } => open_temporary(rt, path),
        _ => open_lasting(rt, path),
    }
}

/// Whether no seat ever writes into the file of a name: an entry comes by a renaming.
fn is_only_read(name: &Name) -> bool
    ensures { IsTrue result ↔ IsOnlyRead name.now }
{
    match name {
        Name::Entry { .. } | Name::Ro { .. } | Name::RoIdx { .. } | Name::List => true,
        Name::FolderLock { .. }
        | Name::Temp { .. }
        | Name::KeyIndex { .. }
        | Name::Db { .. }
        | Name::Idx { .. }
        | Name::Foz { .. }
        | Name::FozIdx { .. } => false,
    }
}

/// How a file is opened for reading and writing.
fn to_write() -> OpenOptions
    ensures { result ≡ with_write (with_read new_options true) true }
{
    let mut options = OpenOptions::new();
    options.read(true).write(true);
    options
}

/// How a new file is made, where nothing is: a link there isn't followed. Nothing is known of options after `mode`, so each
/// other is set behind it.
fn to_make() -> OpenOptions
    ensures { result ≡ record (with_create_new (with_write (with_read new_options true) true) true) { mode = result.mode } }
{
    let mut options = OpenOptions::new();
    options.mode(FILE_MODE);
    options.append(false).truncate(false).create(false);
    options.read(true).write(true).create_new(true);
    options
}

/// What was opened, if it is there.
fn found(opened: io::Result<File>) -> Result<Option<File>, Fault> {
    match opened {
        Ok(file) => Ok(Some(file)),
        Err(error) => {
            pass_missing(error)?;
            Ok(None)
        }
    }
}

/// Whether a file can't be opened for writing, though perhaps for reading.
fn is_denied(kind: ErrorKind) -> bool
    ensures { IsTrue result ↔ ((kind ≡ PermissionDenied) ⊎ (kind ≡ ReadOnlyFilesystem)) }
{
    match kind {
        ErrorKind::PermissionDenied | ErrorKind::ReadOnlyFilesystem => true,
        _ => false,
    }
}

/// The file of a path, for reading and writing, or for reading alone where more is denied. Nothing else than
/// a file that isn't found is `None`.
fn open_to_write<R: RealFiles<File = File>>(rt: &R, path: &str) -> Result<Option<File>, Fault> {
    match to_write().open(rt, path) {
        Err(error) if is_denied(error.kind()) => open_denied(rt, path),
        opened => found(opened),
    }
}

/// The same for reading alone. A folder could be opened so, and a pipe would wait for its writer: what isn't
/// a plain file is a fault.
fn open_denied<R: RealFiles<File = File>>(rt: &R, path: &str) -> Result<Option<File>, Fault> {
    only_plain(&fs::metadata(rt, path)?)?;
    Ok(Some(OpenOptions::new().read(true).open(rt, path)?))
}

/// A file that isn't plain is a fault.
pub fn only_plain(found: &Metadata) -> Result<(), Fault>
    ensures plain { IsOk result ↔ IsFile (file_type found.now) }
    ensures folder { OnErr result (IsDir (file_type found.now) → result ≡ Err (faults.Failed (reasons.System (pos 21)))) }
    ensures other { OnErr result ((IsDir (file_type found.now) → ⊥) → result ≡ Err (faults.Failed reasons.NoPlainFile)) }
{
    if found.is_file() {
        return Ok(());
    }
    if found.is_dir() {
        return Err(Fault::Failed(Reason::System(IS_A_FOLDER)));
    }
    Err(Fault::Failed(Reason::NoPlainFile))
}

/// A file that mostly is there. A link in its place that leads nowhere is a fault, and nothing is made.
pub fn open_lasting<R: RealFiles<File = File>>(rt: &R, path: &str) -> Result<File, Fault> {
    if let Some(file) = found(to_write().open(rt, path))? {
        return Ok(file);
    }
    if let Some(file) = make(rt, path)? {
        return Ok(file);
    }
    // Another process made it meanwhile.
    Ok(to_write().open(rt, path)?)
}

/// A file that mostly isn't there. What is there and is no plain file, a link too, is removed first.
pub fn open_temporary<R: RealFiles<File = File>>(rt: &R, path: &str) -> Result<File, Fault> {
    if let Some(file) = make(rt, path)? {
        return Ok(file);
    }
    remove_unless_plain(rt, path)?;
    open_lasting(rt, path)
}

/// A new file, in folders that are made too where they are missing. None where something is there.
fn make<R: RealFiles<File = File>>(rt: &R, path: &str) -> Result<Option<File>, Fault> {
    match to_make().open(rt, path) {
        Err(error) if error.kind() == ErrorKind::NotFound => {
            make_folders(rt, folder_of(path))?;
            unless_taken(to_make().open(rt, path))
        }
        made => unless_taken(made),
    }
}

/// What was made, unless something was there.
fn unless_taken(made: io::Result<File>) -> Result<Option<File>, Fault> {
    match made {
        Ok(file) => Ok(Some(file)),
        Err(error) => match error.kind() {
            ErrorKind::AlreadyExists => Ok(None),
            _ => Err(Fault::from(error)),
        },
    }
}

/// Makes a folder, and those that it lies in.
fn make_folders<R: RealFiles>(rt: &R, path: &str) -> Result<(), Fault> {
    let mut folders = DirBuilder::new();
    folders.mode(FOLDER_MODE);
    folders.recursive(true);
    folders.create(rt, path)?;
    Ok(())
}

/// Removes what is at a path, if it is no plain file. A link isn't followed, and a folder is a fault.
fn remove_unless_plain<R: RealFiles>(rt: &R, path: &str) -> Result<(), Fault> {
    match fs::symlink_metadata(rt, path) {
        Ok(found) if found.is_file() => Ok(()),
        Ok(_) => remove(rt, path),
        Err(error) => pass_missing(error),
    }
}

#[cfg(test)]
mod tests;
