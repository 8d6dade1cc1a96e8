// Traces as text: the notations din and Lackey, each line's meaning, and the lines of a text.
#![tactic(auto)]

pub mod din;
pub mod fault;
pub mod format;
pub mod lackey;
pub mod line;
pub mod notation;
mod scan;
pub mod text;
