//! Files in memory that one seat calls while other seats do as a schedule says: [`SimFiles`].
#![tactic(auto)]

mod acts;
mod files;

pub use files::SimFiles;
