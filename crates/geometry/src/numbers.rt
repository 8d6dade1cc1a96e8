// Each number has a type of its own, so that an address never passes for a line number, nor a set number for a touch number.

// A byte of the traced program's memory.
#[derive(Clone, Copy, PartialEq, Eq, PartialOrd, Ord, Debug)]
pub struct Address(pub u64);

// A line of memory: the address divided by the line's size, rounded down.
#[derive(Clone, Copy, PartialEq, Eq, PartialOrd, Ord, Debug)]
pub struct LineNumber(pub u64);

// A set of the cache: the line number modulo the number of sets.
#[derive(Clone, Copy, PartialEq, Eq, PartialOrd, Ord, Debug)]
pub struct SetNumber(pub u32);

// The number of a taken touch over all sets, from 0.
#[derive(Clone, Copy, PartialEq, Eq, PartialOrd, Ord, Debug)]
pub struct TouchNumber(pub u64);

// The number of a taken touch within its set, from 0. Gap i of a set lies after turn i.
#[derive(Clone, Copy, PartialEq, Eq, PartialOrd, Ord, Debug)]
pub struct Turn(pub u64);
