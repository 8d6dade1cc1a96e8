//! Memory of several sets stands in one slice, cut into parts of equal size, one for each set.
#![tactic(auto)]

ghost use Rattle.std.specs.Prelude.{◌≡◌, ◌≤◌, length, drop};
ghost use Rattle.parts.specs.Equal.{Apart, ApartSet, Filled};

// A write to a part, or to an element of it, changes no other part.
#[tactic(auto, using(crate::proofs::Writes::part_put, crate::proofs::Writes::part_set))]
pub fn parts_stand_apart<X>()
    ensures part { Apart X }
    ensures element { ApartSet X }
{}

// Makes each of the first n elements v.
pub fn fill<X: Copy>(xs: &mut [X], n: usize, v: X)
    requires { n ≤ length xs.old }
    ensures filled { Filled v n xs.new }
    ensures past { drop n xs.new ≡ drop n xs.old }
{
    // a `for`, since `fill` asks for a clone that cannot fail, which `Copy` does not say, and `fill_with` for a lemma more
    for x in &mut xs[..n] {
        *x = v;
    }
}

#[cfg(test)]
mod tests;
