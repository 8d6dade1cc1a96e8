// Tests of the geometry, the notations and the listing at the edges of what they take.
#![tactic(auto)]

#[cfg(test)]
mod tests;
