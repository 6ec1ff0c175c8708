use report_text::{Status, fault_text};
use row_text::{Sentence, Wrong, shown};
use std::alloc::Global;

/// How a call has to end.
#[derive(Drop)]
pub struct Wanted {
    code: u64,
    said: Option<Vec<u8>>,
    printed: Vec<u8>,
}

impl Wanted {
    /// `ends STATUS [saying TEXT] [prints BYTES]`
    pub fn read(row: &mut Sentence) -> Result<Wanted, Wrong> {
        row.wants("ends")?;
        let code = row.number()?;
        let said = words_said(row)?;
        let printed = bytes_printed(row)?;
        Ok(Wanted {
            code,
            said,
            printed,
        })
    }
}

fn words_said(row: &mut Sentence) -> Result<Option<Vec<u8>>, Wrong> {
    if !row.takes("saying") {
        return Ok(None);
    }
    Ok(Some(row.bytes()?))
}

fn bytes_printed(row: &mut Sentence) -> Result<Vec<u8>, Wrong> {
    if !row.takes("prints") {
        return Ok(Vec::new(row.alloc()));
    }
    row.bytes()
}

/// How a call ended.
#[derive(Drop)]
pub struct Ended {
    code: u64,
    said: String,
    printed: Vec<u8>,
}

impl Ended {
    /// It ended in this status, and printed this.
    pub fn of(alloc: Global, status: Status, printed: &[u8]) -> Result<Ended, Wrong> {
        let said = fault_text(alloc, &status)?;
        Ok(Ended {
            code: u64::from(status.code()),
            said: String::from_str(alloc, said.as_str())?,
            printed: Vec::from_slice(alloc, printed)?,
        })
    }

    fn is(&self, wanted: &Wanted) -> bool {
        self.code == wanted.code
            && self.says(wanted)
            && self.printed.as_slice() == wanted.printed.as_slice()
    }

    fn says(&self, wanted: &Wanted) -> bool {
        match &wanted.said {
            None => true,
            Some(said) => self.said.as_str().as_bytes() == said.as_slice(),
        }
    }

    /// Refuses an end that isn't the wanted one.
    pub fn has_to_be(&self, alloc: Global, wanted: &Wanted) -> Result<(), Wrong> {
        if self.is(wanted) {
            return Ok(());
        }
        let printed = shown(alloc, &self.printed)?;
        Err(Wrong::Found(format!(in alloc;
            "got {} saying '{}', printed {printed}",
            self.code, self.said
        )?))
    }

    /// Refuses the wanted end: beyond the last call that can fail it is another.
    pub fn has_to_differ(&self, alloc: Global, wanted: &Wanted) -> Result<(), Wrong> {
        if self.is(wanted) {
            return Err(Wrong::of(alloc, "one more call can fail"));
        }
        Ok(())
    }
}
