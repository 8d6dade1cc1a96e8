// Kinds of summary of a stretch of gaps: their laws, and the kinds Peak, Load and Both.
#![tactic(auto)]

pub mod kind;
