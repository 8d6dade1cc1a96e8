//! Worked examples of the definitions: each function ensures that its table holds.
#![tactic(auto)]

ghost use Rattle.examples.specs.Table.{TableHolds};
ghost use Rattle.examples.specs.NearMisses.{NearMisses};

/// Every row of the table of worked examples holds.
#[tactic(auto, using(crate::proofs::Computed::table_holds))]
pub fn table_holds()
    ensures { TableHolds }
{}

/// Three rules that nearly agree with OPTgen's are told from it by short traces.
#[tactic(auto, using(crate::proofs::Computed::near_misses))]
pub fn near_misses()
    ensures { NearMisses }
{}
