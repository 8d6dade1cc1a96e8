// Replacement policies with a row for each set, in lent memory: memory calls, opening, LRU and SRRIP.
#![tactic(auto)]

pub mod laws;
pub mod sets;
pub mod shape;
