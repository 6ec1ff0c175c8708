//! What the variables of the environment say of the cache: whether it is on, where it lies and in which
//! layout, how large it may grow, and which read-only databases are asked before it. The words of a command
//! may say its root, layout and size in place of the variables: [`Overrides`].
#![tactic(auto)]

mod cache_settings;
mod names;
mod overrides;
mod places;
mod size;
mod variables;

pub use cache_settings::{CacheSettings, SettingsRefusal, settings, settings_over};
pub use names::{MAX_LIST, MAX_READ_ONLY, names_of_list, names_of_variable};
pub use overrides::Overrides;
pub use size::size_of_text;
pub use variables::VARIABLES;
