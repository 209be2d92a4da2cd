//! The words that the program is given.
#![tactic(auto)]

mod commands;
mod in_force;
mod number_option;
mod one_line;
mod options;
mod sizes;
mod version;
mod words;

pub use in_force::options_in_force;
pub use one_line::on_one_line;
pub use options::{Job, Options, ServeOptions};
pub use sizes::{BadSizes, geometry_of};
pub use words::{WordsFault, parse_words, unreadable_words};
