use crate::looks::{file, no_file};
use crate::setting::Asked;
use crate::sink::RowSink;
use cache_main::{plan_of, run};
use cache_types::Who;
use files_api::Source;
use host_files::HostFiles;
use report_text::Status;
use row_text::{Sentence, Wrong};
use std::fs::{self, File, OpenOptions};

/// The seat that calls.
const ME: Who = Who {
    process: 0,
    seat: 0,
};

/// A file that another opening of it has locked.
#[derive(Drop)]
struct Lock {
    path: String,
    file: File,
}

/// A case's folder of real files, in the current folder. It is removed where this is let go.
pub struct Folder {
    rt: HostRuntime,
    path: String,
    locks: Vec<Lock>,
}

impl Drop for Folder {
    fn drop(self) {
        let Folder {
            rt,
            path,
            locks: _locks,
        } = self;
        let _removed = fs::remove_dir_all(&rt, path.as_str());
    }
}

impl Folder {
    /// `real NAME`: the empty folder `case-NAME`
    pub fn new(rt: &HostRuntime, row: &mut Sentence) -> Result<Folder, Wrong> {
        let alloc = rt.alloc();
        let path = path_of_case(row)?;
        // It is there only where another run was broken off.
        let _removed = fs::remove_dir_all(rt, path.as_str());
        let folder = Folder {
            rt: rt.clone()?,
            path,
            locks: Vec::new(alloc),
        };
        folder.make("")?;
        Ok(folder)
    }

    /// The path of a place below the folder.
    fn path(&self, below: &str) -> Result<String, Wrong> {
        let folder = self.path.as_str();
        Ok(format!(in self.rt.alloc(); "{folder}/{below}")?)
    }

    /// Makes a folder, and those that it lies in.
    fn make(&self, below: &str) -> Result<(), Wrong> {
        let path = self.path(below)?;
        match fs::create_dir_all(&self.rt, path.as_str()) {
            Ok(()) => Ok(()),
            Err(error) => Err(self.wrong(below, error)),
        }
    }

    /// What the system says of a place.
    fn wrong(&self, below: &str, error: std::io::Error) -> Wrong {
        match format!(in self.rt.alloc(); "{below}: {error}") {
            Ok(text) => Wrong::Found(text),
            Err(_) => Wrong::NoMemory,
        }
    }

    /// `lies PATH holds BYTES`, `lies PATH is folder`, `.. locked`, `.. free`, `.. gone`: makes that so
    pub fn lies(&mut self, row: &mut Sentence) -> Result<(), Wrong> {
        let below = place(row)?;
        if row.takes("holds") {
            let bytes = row.bytes()?;
            return self.write(below.as_str(), &bytes);
        }
        row.wants("is")?;
        if row.takes("folder") {
            return self.make(below.as_str());
        }
        if row.takes("locked") {
            return self.lock(below);
        }
        if row.takes("free") {
            return self.let_go(below.as_str());
        }
        row.wants("gone")?;
        self.remove(below.as_str())
    }

    /// Writes a file, and makes the folders that it lies in.
    fn write(&self, below: &str, bytes: &[u8]) -> Result<(), Wrong> {
        if let Some((above, _)) = below.rsplit_once('/') {
            self.make(above)?;
        }
        let path = self.path(below)?;
        match fs::write(&self.rt, path.as_str(), bytes) {
            Ok(()) => Ok(()),
            Err(error) => Err(self.wrong(below, error)),
        }
    }

    /// Opens a file that is there, or is made, and takes its lock.
    fn lock(&mut self, below: String) -> Result<(), Wrong> {
        if self.path(below.as_str()).is_ok() && !self.is_there(below.as_str())? {
            self.write(below.as_str(), &[])?;
        }
        let file = self.open(below.as_str())?;
        if file.try_lock().is_err() {
            return Err(Wrong::of(self.rt.alloc(), "the lock isn't free"));
        }
        self.locks.push(Lock { path: below, file })?;
        Ok(())
    }

    fn open(&self, below: &str) -> Result<File, Wrong> {
        let path = self.path(below)?;
        let mut options = OpenOptions::new();
        options.read(true).write(true);
        match options.open(&self.rt, path.as_str()) {
            Ok(file) => Ok(file),
            Err(error) => Err(self.wrong(below, error)),
        }
    }

    fn is_there(&self, below: &str) -> Result<bool, Wrong> {
        let path = self.path(below)?;
        Ok(fs::metadata(&self.rt, path.as_str()).is_ok())
    }

    /// Closes the opening that has the lock.
    fn let_go(&mut self, below: &str) -> Result<(), Wrong> {
        let count = self.locks.len();
        self.locks.retain(|lock| lock.path.as_str() != below);
        if self.locks.len() < count {
            return Ok(());
        }
        Err(Wrong::of(self.rt.alloc(), "no row has locked it"))
    }

    /// Removes a file.
    fn remove(&self, below: &str) -> Result<(), Wrong> {
        let path = self.path(below)?;
        match fs::remove_file(&self.rt, path.as_str()) {
            Ok(()) => Ok(()),
            Err(error) => Err(self.wrong(below, error)),
        }
    }

    /// `then lies PATH holds BYTES`, `.. has N bytes`, `.. is folder`, `.. is absent`
    pub fn then(&self, row: &mut Sentence) -> Result<(), Wrong> {
        let below = place(row)?;
        let path = self.path(below.as_str())?;
        match fs::metadata(&self.rt, path.as_str()) {
            Err(_) => no_file(row),
            Ok(found) if found.is_dir() => is_folder(row),
            Ok(_) => self.file_is(row, below.as_str()),
        }
    }

    fn file_is(&self, row: &mut Sentence, below: &str) -> Result<(), Wrong> {
        let path = self.path(below)?;
        match fs::read(&self.rt, path.as_str()) {
            Ok(bytes) => file(row, &bytes),
            Err(error) => Err(self.wrong(below, error)),
        }
    }

    /// Makes a call of the program.
    pub fn run<S: Source>(
        &self,
        asked: &Asked,
        source: &mut S,
        out: &mut RowSink,
    ) -> Result<Status, Wrong> {
        let alloc = self.rt.alloc();
        let paths = match plan_of(alloc, &asked.words, &asked.vars) {
            Ok(paths) => paths,
            Err(status) => return Ok(status),
        };
        let mut files = HostFiles::new(alloc, self.rt.clone()?, ME, paths)?;
        Ok(run(alloc, &asked.words, &asked.vars, &mut files, source, out))
    }
}

/// `is folder`, of one.
fn is_folder(row: &mut Sentence) -> Result<(), Wrong> {
    if row.takes("is") {
        return row.wants("folder");
    }
    Err(Wrong::of(row.alloc(), "got a folder"))
}

/// The case's folder, by a name of letters, digits and `-`.
fn path_of_case(row: &mut Sentence) -> Result<String, Wrong> {
    let name = row.text()?;
    if name.as_str().is_empty() || !name.as_str().bytes().all(is_plain) {
        return Err(Wrong::of(row.alloc(), "a name of letters, digits and '-' is wanted"));
    }
    Ok(format!(in row.alloc(); "case-{name}")?)
}

fn is_plain(byte: u8) -> bool {
    byte.is_ascii_alphanumeric() || byte == b'-'
}

/// A path below the case's folder, which leads nowhere else.
fn place(row: &mut Sentence) -> Result<String, Wrong> {
    let path = row.text()?;
    if path.as_str().split('/').any(leads_away) {
        return Err(Wrong::of(row.alloc(), "a path below the case's folder is wanted"));
    }
    Ok(path)
}

fn leads_away(part: &str) -> bool {
    part.is_empty() || part == "." || part == ".."
}
