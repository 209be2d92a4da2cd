//! `segcached replay`.
#![tactic(auto)]

mod fault;
mod reading;
mod run;

pub use fault::Fault;
pub use group::Runtime;
pub use reading::cannot_read;
pub use run::replay;
