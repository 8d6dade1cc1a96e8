// Tests of the policies against counts of a plain simulator.
#![tactic(auto)]

#[cfg(test)]
mod tests;
