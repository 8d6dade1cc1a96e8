// What the program `grade` prints: its first line, the touches of a trace, and the listing of them.
#![tactic(auto)]

pub mod first;
pub mod listing;
mod page;
mod tally;
