ghost use Rattle.std.specs.Prelude.{◌≡◌};
ghost use Rattle.policies.specs.Memory.{needed, checked, used};

use geometry::refusal::Refusal;

// The shape of a policy: 2^s sets of W ways. Any two numbers make one; the calls refuse what is beyond the limits.
#[derive(Clone, Copy, PartialEq, Eq, Debug)]
pub struct Shape {
    pub s: u32,
    pub ways: u32,
}

impl Shape {
    // The number of rows that a policy needs: one for each set.
    pub fn rows_needed(self) -> Result<usize, Refusal>
        ensures { result ≡ needed self.s self.ways }
    {
        if self.s > 10 || !(1..=16).contains(&self.ways) {
            return Err(Refusal::Limits);
        }
        Ok(1 << self.s)
    }

    // Whether a policy can be opened over a number of rows.
    pub fn check(self, rows: usize) -> Result<(), Refusal>
        ensures { result ≡ checked rows self.s self.ways }
    {
        if rows < self.rows_needed()? {
            return Err(Refusal::Memory);
        }
        Ok(())
    }

    // How many rows a policy uses of a number of rows: what it needs, or none where the check refuses.
    pub(crate) fn rows_used(self, rows: usize) -> usize
        ensures { result ≡ used rows self.s self.ways }
    {
        self.check(rows).map_or(0, |()| 1 << self.s)
    }
}
