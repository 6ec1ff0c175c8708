ghost use Rattle.std.specs.Prelude.{◌≡◌, ◌++◌, IfOk, OnOk, codes, decimal, string_bytes};
ghost use Rattle.report_text.specs.SettingsLines.{layout_word, line_of, names_or_dash, path_or_dash, settings_lines};

use cache_types::{Bytes, Layout, NoMemory, Text};
use settings_read::CacheSettings;
use std::alloc::Global;

/// The word of a layout.
fn layout_word(layout: Layout) -> &'static str
    ensures { result.now ≡ layout_word layout }
{
    match layout {
        Layout::Folder => "folder",
        Layout::Database => "database",
        Layout::Foz => "foz",
    }
}

/// Adds the names with commas between them, or a dash where there is none.
fn push_names(text: &mut String, names: &[Text]) -> Result<(), NoMemory>
    ensures { OnOk result (string_bytes text.new ≡ string_bytes text.old ++ names_or_dash names.now) }
{
    let Some((first, others)) = names.split_first() else {
        text.push_str("-")?;
        return Ok(());
    };
    text.push_str(first.as_str())?;
    for name in others {
        write!(text, ",{}", name.as_str())?;
    }
    Ok(())
}

/// The path, or a dash where there is none.
fn path_or_dash(path: &Option<Text>) -> &str
    ensures { result.now ≡ path_or_dash path.now }
{
    match path {
        Some(path) => path.as_str(),
        None => "-",
    }
}

/// Adds the lines of the root, the layout and the size.
fn push_store(text: &mut String, settings: &CacheSettings) -> Result<(), NoMemory>
    ensures { OnOk result (string_bytes text.new ≡ string_bytes text.old ++ (line_of (codes "root") settings.now.root ++ (line_of (codes "layout") (layout_word settings.now.layout) ++ line_of (codes "max") (decimal settings.now.max)))) }
{
    writeln!(text, "root {}", settings.root.as_str())?;
    writeln!(text, "layout {}", layout_word(settings.layout))?;
    writeln!(text, "max {}", settings.max)?;
    Ok(())
}

/// Adds the lines of the read-only databases.
fn push_read_only(text: &mut String, settings: &CacheSettings) -> Result<(), NoMemory>
    ensures { OnOk result (string_bytes text.new ≡ string_bytes text.old ++ (line_of (codes "read-only") (names_or_dash settings.now.ro) ++ line_of (codes "list") (path_or_dash settings.now.list))) }
{
    text.push_str("read-only ")?;
    push_names(text, settings.ro.as_slice())?;
    writeln!(text, "\nlist {}", path_or_dash(&settings.list))?;
    Ok(())
}

/// What the command `settings` prints: five lines, each of a word, a space and a setting. They are `root` with
/// the folder, `layout` with `folder`, `database` or `foz`, `max` with the bytes in decimal digits, `read-only`
/// with the names of read-only databases and commas between them, and `list` with the path of the file that
/// names more. A dash stands where there are no names or there is no path.
pub fn settings_text(alloc: Global, settings: &CacheSettings) -> Result<Bytes, NoMemory>
    ensures { IfOk result (λ bytes. bytes ≡ settings_lines settings.now) }
{
    let mut text = String::new(alloc);
    push_store(&mut text, settings)?;
    push_read_only(&mut text, settings)?;
    Ok(Bytes::from_vec(text.into_bytes()))
}
