//! Where the files of the cache lie: the path of each name, under the roots that a program was given.
#![tactic(auto)]

mod digits;
mod paths;
mod place;
mod ro_name;

pub use paths::{Paths, has_path, path_of};
pub use ro_name::is_ro_name;
