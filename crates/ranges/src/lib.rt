// The occupancies of the gaps of one cache set, asked and raised over whole stretches in logarithmic time, for any lawful kind of summary.
#![tactic(auto)]

pub mod gaps;
pub mod operations;
