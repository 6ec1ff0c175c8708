ghost use Rattle.std.specs.Prelude.{◌≡◌, ◌++◌, IfOk, option_map};
ghost use Rattle.settings_read.specs.Variables.{texts_of};
ghost use Rattle.settings_read.specs.Places.{layout_of_variables, base_of, folder_of, root_in};

use crate::variables::{
    CACHE_DIR, HOME, MULTI_FILE, SINGLE_FILE, XDG_CACHE_HOME, is_true, value_of,
};
use cache_types::{Layout, NoMemory, Text};
use std::alloc::Global;

/// The folder that the cache's own folder stands in.
#[derive(Clone, Copy)]
pub struct Base<'a> {
    /// A folder that a variable names.
    pub folder: &'a str,
    /// What stands behind it, with its slash.
    pub below: &'a str,
}

/// The layout that the variables ask for.
pub fn layout_of_variables(vars: &[(String, String)]) -> Layout
    ensures { result ≡ layout_of_variables (texts_of vars.now) }
{
    if is_true(vars, MULTI_FILE) {
        Layout::Folder
    } else if is_true(vars, SINGLE_FILE) {
        Layout::Foz
    } else {
        Layout::Database
    }
}

/// Where the variables let the cache stand, if they say it.
pub fn base_of(vars: &[(String, String)]) -> Option<Base<'_>>
    ensures { option_map (λ base. base.folder.now ++ base.below.now) result ≡ base_of (texts_of vars.now) }
{
    if let Some(folder) = value_of(vars, CACHE_DIR) {
        return Some(Base { folder, below: "" });
    }
    if let Some(folder) = value_of(vars, XDG_CACHE_HOME) {
        return Some(Base { folder, below: "" });
    }
    match value_of(vars, HOME) {
        Some(folder) => Some(Base {
            folder,
            below: "/.cache",
        }),
        None => None,
    }
}

/// The name of the cache's own folder.
fn folder_of(layout: Layout) -> &'static str
    ensures { result.now ≡ folder_of layout }
{
    match layout {
        Layout::Folder => "mesa_shader_cache",
        Layout::Foz => "mesa_shader_cache_sf",
        Layout::Database => "mesa_shader_cache_db",
    }
}

/// The root of a layout's store.
pub fn root_in(alloc: Global, base: Base<'_>, layout: Layout) -> Result<Text, NoMemory>
    ensures { IfOk result (λ root. root ≡ root_in (base.entry.folder.now ++ base.entry.below.now) layout) }
{
    let mut root = String::from_str(alloc, base.folder)?;
    root.push_str(base.below)?;
    root.push_str("/")?;
    root.push_str(folder_of(layout))?;
    Ok(Text::from_string(root))
}
