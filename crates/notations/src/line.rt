use geometry::numbers::Address;

// What an access does.
#[derive(Clone, Copy, PartialEq, Eq, Debug)]
pub enum Kind {
    Fetch,
    Load,
    Store,
    Modify,
}

// An access that a line records. The address's digits are a part of the text, from `column` of their line on.
#[derive(Clone, Copy, PartialEq, Eq, Debug)]
pub struct Record<'t> {
    pub kind: Kind,
    pub address: Address,
    pub size: u64,
    pub digits: &'t [u8],
    pub column: usize,
}
