// A tree of summaries over lent nodes, proved once for every lawful kind of summary.
#![tactic(auto)]

pub mod tree;
