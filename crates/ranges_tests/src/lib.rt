// Tests of the gaps of a set against tables and against a plain list.
#![tactic(auto)]

#[cfg(test)]
mod tests;
