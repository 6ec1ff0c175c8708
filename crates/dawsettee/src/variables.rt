use cache_types::NoMemory;
use settings_read::VARIABLES;
use std::env::{self, VarError};

/// The variables of the environment that settings are read from, each with its value. One whose value isn't
/// UTF-8 counts as unset, and so is left out.
pub fn variables_of(rt: &HostRuntime) -> Result<Vec<(String, String)>, NoMemory> {
    let alloc = rt.alloc();
    let mut vars = Vec::new(alloc);
    for name in VARIABLES {
        match env::var(rt, name) {
            Ok(value) => vars.push((String::from_str(alloc, name)?, value))?,
            Err(VarError::OutOfMemory) => return Err(NoMemory),
            Err(_) => {}
        }
    }
    Ok(vars)
}
