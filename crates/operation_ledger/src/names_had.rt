ghost use Rattle.std.specs.Prelude.{◌≡◌, ◌+◌, ◌<◌, ◌++◌, ◌∷◌, [], ℕ, List, OnOk, OnErr, length, nat_eq, if◌then◌else◌};
ghost use Rattle.cache_types.specs.declared.name.Name.{Name};
ghost use Rattle.cache_types.specs.declared.name.Name.TheVariants.{Ro, RoIdx};
ghost use Rattle.file_log.specs.declared.reply.Reply.TheVariants.{Done};
ghost use Rattle.log_summary.specs.Summary.{gained, gained_by, gained_list};
ghost use Rattle.operation_ledger.specs.NameLists.{names_at, HaveSame};

use crate::name_list::NameList;
use cache_types::{Bytes, Name, NoMemory, Text};
use file_log::{Call, LogItem, Reply};
use std::alloc::Global;
use world_tables::Tables;

/// The names that each file has had, by the file's number.
#[derive(Debug, Drop)]
pub struct NamesHad {
    alloc: Global,
    files: Vec<NameList>,
}

/// Makes lists for files up to this one. No file gets a name.
fn reach(alloc: Global, files: &mut Vec<NameList>, file: usize) -> Result<(), NoMemory>
    ensures same { HaveSame files.old.items files.new.items }
    ensures reached { OnOk result (file < length files.new.items) }
{
    while files.len() <= file {
        files.push(NameList::new(alloc))?;
    }
    Ok(())
}

/// Gives a file one name more.
fn add(alloc: Global, files: &mut Vec<NameList>, file: usize, name: Name) -> Result<(), NoMemory>
    ensures ok { OnOk result ((f : ℕ) → names_at files.new.items f ≡ (if nat_eq file f then names_at files.old.items f ++ name ∷ [] else names_at files.old.items f)) }
    ensures err { OnErr result (HaveSame files.old.items files.new.items) }
{
    reach(alloc, files, file)?;
    files[file].push(name)
}

/// Takes the last name of a file away again.
fn take_back(files: &mut Vec<NameList>, file: usize)
    ensures { (names : ℕ → List Name) (name : Name) → ((f : ℕ) → names_at files.old.items f ≡ (if nat_eq file f then names f ++ name ∷ [] else names f))
        → (f : ℕ) → names_at files.new.items f ≡ names f }
{
    if file < files.len() {
        files[file].pop();
    }
}

impl NamesHad {
    ghost use Rattle.world_tables.specs.Tables.{disk_at};
    ghost use Rattle.operation_ledger.specs.Had.{names_of_file, IsNamesHad, Gains};

    /// Before any item no file has had a name. Takes no memory.
    pub fn new(alloc: Global) -> NamesHad
        ensures { IsNamesHad result [] }
    {
        NamesHad {
            alloc,
            files: Vec::new(alloc),
        }
    }

    /// The names that a file has had, in the order in which it got them.
    pub fn names_of(&self, file: usize) -> &[Name]
        ensures { (had : List (Name × ℕ)) → IsNamesHad self.now had → result.now ≡ names_of_file file had }
    {
        if file < self.files.len() {
            self.files[file].as_slice()
        } else {
            &[]
        }
    }

    /// A file gets a name.
    fn gain(&mut self, file: usize, name: Name) -> Result<(), NoMemory>
        ensures ok { OnOk result (Gains self.old self.new ((name, file) ∷ [])) }
        ensures err { OnErr result (HaveSame self.old.files.items self.new.files.items) }
    {
        add(self.alloc, &mut self.files, file, name)
    }

    /// The two files of a read-only database get their names, which are new.
    fn install(&mut self, count: usize, root: u32, name: &Text) -> Result<(), NoMemory>
        ensures ok { OnOk result (Gains self.old self.new ((Ro root name.now, count) ∷ (RoIdx root name.now, count + 1) ∷ [])) }
        ensures err { OnErr result (HaveSame self.old.files.items self.new.files.items) }
    {
        let Some(next) = count.checked_add(1) else {
            return Err(NoMemory);
        };
        let main = Name::Ro {
            root,
            name: name.copy()?,
        };
        let index = Name::RoIdx {
            root,
            name: name.copy()?,
        };
        add(self.alloc, &mut self.files, count, main)?;
        match add(self.alloc, &mut self.files, next, index) {
            Ok(()) => Ok(()),
            Err(refusal) => {
                take_back(&mut self.files, count);
                Err(refusal)
            }
        }
    }

    /// Goes on over a call that was answered Done.
    fn follow_call(&mut self, tables: &Tables, call: &Call) -> Result<(), NoMemory>
        ensures ok { OnOk result (Gains self.old self.new (gained_by (disk_at tables.now) call.now Done)) }
        ensures err { OnErr result (HaveSame self.old.files.items self.new.files.items) }
    {
        match call {
            Call::OpenNew { slot: _, name } => match tables.names.number_of(name) {
                None => self.gain(tables.files.len(), name.copy()?),
                Some(_) => Ok(()),
            },
            Call::Rename { from, to } => match tables.names.number_of(from) {
                None => Ok(()),
                Some(file) => self.gain(file, to.copy()?),
            },
            _ => Ok(()),
        }
    }

    /// Goes on over a call with its reply: only one that was answered Done gives names.
    fn follow_reply(&mut self, tables: &Tables, call: &Call, reply: &Reply) -> Result<(), NoMemory>
        ensures ok { OnOk result (Gains self.old self.new (gained_by (disk_at tables.now) call.now reply.now)) }
        ensures err { OnErr result (HaveSame self.old.files.items self.new.files.items) }
    {
        match reply {
            Reply::Done => self.follow_call(tables, call),
            _ => Ok(()),
        }
    }

    /// Goes on over a list of read-only databases that is set or taken away.
    fn follow_list(&mut self, tables: &Tables, text: &Option<Bytes>) -> Result<(), NoMemory>
        ensures ok { OnOk result (Gains self.old self.new (gained_list (disk_at tables.now) text.now)) }
        ensures err { OnErr result (HaveSame self.old.files.items self.new.files.items) }
    {
        match text {
            None => Ok(()),
            Some(_) => self.gain(tables.files.len(), Name::List),
        }
    }

    /// Goes on over an item, by the tables as they are before it. A refusal leaves what was told.
    pub fn follow(&mut self, tables: &Tables, item: &LogItem) -> Result<(), NoMemory>
        ensures ok { OnOk result ((had : List (Name × ℕ)) → IsNamesHad self.old had → IsNamesHad self.new (had ++ gained (disk_at tables.now) item.now)) }
        ensures err { OnErr result ((had : List (Name × ℕ)) → IsNamesHad self.old had → IsNamesHad self.new had) }
    {
        match item {
            LogItem::Did {
                who: _,
                call,
                reply,
            } => self.follow_reply(tables, call, reply),
            LogItem::Install {
                root,
                name,
                main: _,
                index: _,
            } => self.install(tables.files.len(), *root, name),
            LogItem::SetList { text } => self.follow_list(tables, text),
            _ => Ok(()),
        }
    }
}
