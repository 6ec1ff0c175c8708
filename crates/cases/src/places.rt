use cache_main::plan_of;
use cache_types::Text;
use path_names::Paths;
use report_text::Status;
use row_text::{Sentence, Wrong, equal, same};

/// `root of WORDS is PATH [list PATH]`, `root of WORDS is none`, `root of WORDS ends STATUS`: what real files the
/// words and variables need
pub fn root(vars: &[(String, String)], row: &mut Sentence) -> Result<(), Wrong> {
    row.wants("of")?;
    let words = row.texts()?;
    match plan_of(row.alloc(), &words, vars) {
        Ok(paths) => paths_are(row, &paths),
        Err(status) => ends_in(row, status),
    }
}

fn ends_in(row: &mut Sentence, status: Status) -> Result<(), Wrong> {
    let code = u64::from(status.code());
    if row.takes("ends") {
        let wanted = row.number()?;
        return equal(row.alloc(), "as status", wanted, code);
    }
    Err(Wrong::Found(format!(in row.alloc(); "got status {code}")?))
}

fn paths_are(row: &mut Sentence, paths: &Paths) -> Result<(), Wrong> {
    row.wants("is")?;
    if row.takes("none") {
        let roots = paths.roots.as_slice().len() as u64;
        equal(row.alloc(), "roots", 0, roots)?;
        return no_list(row, &paths.list);
    }
    let root = row.text()?;
    is_only(row, root.as_str(), paths.roots.as_slice())?;
    list_is(row, &paths.list)
}

/// The one root is this.
fn is_only(row: &Sentence, wanted: &str, roots: &[Text]) -> Result<(), Wrong> {
    match roots {
        [root] => same(row.alloc(), wanted.as_bytes(), root.as_str().as_bytes()),
        _ => equal(row.alloc(), "roots", 1, roots.len() as u64),
    }
}

/// `[list PATH]`
fn list_is(row: &mut Sentence, list: &Option<Text>) -> Result<(), Wrong> {
    if !row.takes("list") {
        return no_list(row, list);
    }
    let wanted = row.text()?;
    match list {
        Some(list) => same(row.alloc(), wanted.as_bytes(), list.as_str().as_bytes()),
        None => Err(Wrong::of(row.alloc(), "there is no list")),
    }
}

fn no_list(row: &Sentence, list: &Option<Text>) -> Result<(), Wrong> {
    match list {
        None => Ok(()),
        Some(list) => Err(Wrong::Found(format!(in row.alloc(); "got the list {}", list.as_str())?)),
    }
}
