// The shape of a cache, the numbers that name its parts, and the refusals that every layer answers.
#![tactic(auto)]

pub mod access;
pub mod numbers;
pub mod refusal;
pub mod shape;
