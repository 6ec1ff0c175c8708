use crate::expect::{holds, optional_text, same_text};
use crate::names::list_of;
use crate::texts::{text, texts_up_to};
use crate::words::layout_name;
use cache_types::{Layout, Text, TextList};
use report_text::settings_text;
use row_text::{Sentence, Wrong, equal, same};
use settings_read::{
    CacheSettings, Overrides, SettingsRefusal, VARIABLES, names_of_list, names_of_variable,
    settings, settings_over, size_of_text,
};
use std::alloc::Global;

/// The words that end the variables of a row.
const ENDS: [&str; 3] = ["over", "give", "are"];

/// `size TEXT is N`
pub fn size(row: &mut Sentence) -> Result<(), Wrong> {
    let spelled = text(row)?;
    row.wants("is")?;
    equal(
        row.alloc(),
        "bytes",
        row.number()?,
        size_of_text(spelled.as_str()),
    )
}

/// `names TEXT are NAME,..`, or `are none`: those that a variable gives
pub fn names(row: &mut Sentence) -> Result<(), Wrong> {
    let value = text(row)?;
    row.wants("are")?;
    let names = names_of_variable(row.alloc(), value.as_str())?;
    are_names(row, &names)
}

/// `list BYTES is NAME,..`, or `is none`: those that a list file gives
pub fn list(row: &mut Sentence) -> Result<(), Wrong> {
    let bytes = row.bytes()?;
    row.wants("is")?;
    let names = names_of_list(row.alloc(), &bytes)?;
    are_names(row, &names)
}

fn are_names(row: &mut Sentence, names: &TextList) -> Result<(), Wrong> {
    let alloc = row.alloc();
    if row.takes("none") {
        return equal(alloc, "names", 0, names.as_slice().len() as u64);
    }
    let wanted = text(row)?;
    same_text(alloc, wanted.as_str(), joined(alloc, names)?.as_str())
}

/// Names with commas between them.
fn joined(alloc: Global, names: &TextList) -> Result<String, Wrong> {
    let mut text = String::new(alloc);
    for name in names.as_slice() {
        if !text.is_empty() {
            text.push_str(",")?;
        }
        text.push_str(name.as_str())?;
    }
    Ok(text)
}

/// `variable NAME is read`, or `is not read`
pub fn variable(row: &mut Sentence) -> Result<(), Wrong> {
    let name = row.text()?;
    row.wants("is")?;
    let read = !row.takes("not");
    row.wants("read")?;
    let known = VARIABLES.iter().any(|known| *known == name.as_str());
    holds(row.alloc(), "such variables", read, known)
}

/// `variables NAME=VALUE.. [over [root R] [layout L] [limit N]] give SETTINGS`, or `are refused REFUSAL`
pub fn variables(row: &mut Sentence) -> Result<(), Wrong> {
    let vars = pairs_of(row.alloc(), texts_up_to(row, &ENDS)?)?;
    let read = match row.takes("over") {
        true => settings_over(row.alloc(), &vars, over_of(row)?),
        false => settings(row.alloc(), &vars),
    };
    match read {
        Ok(settings) => gives(row, &settings),
        Err(refusal) => refuses(row, refusal),
    }
}

fn pairs_of(alloc: Global, texts: Vec<String>) -> Result<Vec<(String, String)>, Wrong> {
    let mut pairs = Vec::new(alloc);
    for text in texts {
        let Some((name, value)) = text.as_str().split_once('=') else {
            return Err(Wrong::of(alloc, "'NAME=VALUE' is wanted"));
        };
        let name = String::from_str(alloc, name)?;
        let value = String::from_str(alloc, value)?;
        pairs.push((name, value))?;
    }
    Ok(pairs)
}

/// Takes `[root R] [layout L] [limit N]`.
fn over_of(row: &mut Sentence) -> Result<Overrides, Wrong> {
    let mut over = Overrides::none();
    if row.takes("root") {
        over.root = Some(Text::from_string(text(row)?));
    }
    if row.takes("layout") {
        over.layout = Some(layout_of(row)?);
    }
    if row.takes("limit") {
        over.limit = Some(row.number()?);
    }
    Ok(over)
}

fn layout_of(row: &mut Sentence) -> Result<Layout, Wrong> {
    let name = row.text()?;
    match name.as_str() {
        "folder" => Ok(Layout::Folder),
        "database" => Ok(Layout::Database),
        "foz" => Ok(Layout::Foz),
        _ => Err(Wrong::of(row.alloc(), "a layout is wanted")),
    }
}

/// `are refused Off`, `are refused NoRoot`, or `are refused TooManyReadOnly N`
fn refuses(row: &mut Sentence, refusal: SettingsRefusal) -> Result<(), Wrong> {
    row.wants("are")?;
    row.wants("refused")?;
    match refusal {
        SettingsRefusal::Off => row.wants("Off"),
        SettingsRefusal::NoRoot => row.wants("NoRoot"),
        SettingsRefusal::TooManyReadOnly(count) => too_many(row, count),
        SettingsRefusal::NoMemory => Err(Wrong::NoMemory),
    }
}

fn too_many(row: &mut Sentence, count: u64) -> Result<(), Wrong> {
    row.wants("TooManyReadOnly")?;
    equal(row.alloc(), "names", row.number()?, count)
}

/// `give root R layout L max N read-only NAME,.. list PATH`, where `none` stands for no names and for no path
fn gives(row: &mut Sentence, settings: &CacheSettings) -> Result<(), Wrong> {
    row.wants("give")?;
    row.wants("root")?;
    optional_text(row, Some(settings.root.as_str()))?;
    row.wants("layout")?;
    optional_text(row, Some(layout_name(settings.layout)))?;
    row.wants("max")?;
    equal(row.alloc(), "bytes", row.number()?, settings.max)?;
    row.wants("read-only")?;
    are_names(row, &settings.ro)?;
    row.wants("list")?;
    optional_text(row, settings.list.as_ref().map(Text::as_str))
}

/// `settings root R layout L max N read-only NAME,.. list PATH prints BYTES`
pub fn printed(row: &mut Sentence) -> Result<(), Wrong> {
    let settings = settings_of(row)?;
    row.wants("prints")?;
    let wanted = row.bytes()?;
    let text = settings_text(row.alloc(), &settings)?;
    same(row.alloc(), &wanted, text.as_slice())
}

/// Takes `root R layout L max N read-only NAME,.. list PATH`.
fn settings_of(row: &mut Sentence) -> Result<CacheSettings, Wrong> {
    row.wants("root")?;
    let root = Text::from_string(text(row)?);
    row.wants("layout")?;
    let layout = layout_of(row)?;
    row.wants("max")?;
    let max = row.number()?;
    let ro = ro_of(row)?;
    row.wants("list")?;
    let list = match row.takes("none") {
        true => None,
        false => Some(Text::from_string(text(row)?)),
    };
    Ok(CacheSettings {
        root,
        layout,
        max,
        ro,
        list,
    })
}

/// Takes `read-only NAME..`, or `read-only none`.
fn ro_of(row: &mut Sentence) -> Result<TextList, Wrong> {
    row.wants("read-only")?;
    if row.takes("none") {
        return Ok(TextList::new(row.alloc()));
    }
    let texts = texts_up_to(row, &["list"])?;
    Ok(list_of(row.alloc(), texts)?)
}
