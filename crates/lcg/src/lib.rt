// Numbers that look random and are the same in each run, for tests and benchmarks.
#![tactic(auto)]

ghost use Rattle.std.specs.Prelude.{◌≡◌, ◌+◌, ◌*◌, ◌/◌, ◌%◌, ◌^◌, max};

// A linear congruential generator, with the numbers of Numerical Recipes.
#[derive(Clone, Copy, PartialEq, Eq, Debug)]
pub struct Lcg {
    seed: u32,
}

impl Lcg {
    pub fn new(seed: u32) -> Lcg
        ensures { result.seed ≡ seed }
    {
        Lcg { seed }
    }

    // The next number below `bound`, or 0 below 0. It is of the upper 24 bits of the seed, since the lower ones come round soon.
    pub fn below(&mut self, bound: usize) -> usize
        ensures seed { self.new.seed ≡ (self.old.seed * 1664525 + 1013904223) % 2 ^ 32 }
        ensures value { result ≡ self.new.seed / 2 ^ 8 % max bound 1 }
    {
        self.seed = self.seed.wrapping_mul(1664525).wrapping_add(1013904223);
        (self.seed >> 8) as usize % bound.max(1)
    }
}

#[cfg(test)]
mod tests {
    use super::*;

    // The first seeds after 0 that Numerical Recipes prints.
    #[test]
    fn first_seeds(rt: HostRuntime) {
        let mut lcg = Lcg::new(0);
        for seed in [
            0x3C6EF35F, 0x47502932, 0xD1CCF6E9, 0xAAF95334, 0x6252E503, 0x9F2EC686, 0x57FE6C2D,
        ] {
            assert_eq!(rt; lcg.below(1 << 24), seed >> 8);
        }
    }
}
