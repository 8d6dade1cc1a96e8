ghost use Rattle.std.specs.Prelude.{◌^◌, ◌<◌, ◌≤◌, IsTrue, ◌↔◌};
ghost use Rattle.notations.specs.Bytes.{Blank, Stops, Indent, Longest};

fn is_blank(byte: u8) -> bool
    ensures { IsTrue result ↔ Blank byte }
{
    byte == b' ' || byte == b'\t'
}

// Whether a line may stop before these bytes: they are none, or begin with a blank.
pub(crate) fn stops(bytes: &[u8]) -> bool
    ensures { IsTrue result ↔ Stops bytes.now }
{
    bytes.first().is_none_or(|byte| is_blank(*byte))
}

// How many blanks the bytes begin with.
pub(crate) fn indent(bytes: &[u8]) -> usize
    ensures { Indent bytes.now result }
{
    bytes
        .iter()
        .position(|byte| !is_blank(*byte))
        .unwrap_or(bytes.len())
}

// The digits that some bytes begin with, by their number, and what they write.
#[derive(Clone, Copy)]
pub(crate) struct Numeral {
    pub count: usize,
    pub value: u64,
}

// The longest front of digits, of which no more than `most` are read.
pub(crate) fn figures(bytes: &[u8], radix: u32, most: usize) -> Numeral
    requires least { 2 ≤ radix }
    requires greatest { radix ≤ 16 }
    requires fits { radix ^ most ≤ 2 ^ 64 }
    ensures { Longest radix most bytes.now result.count result.value }
{
    let limit = most.min(bytes.len());
    let mut value = 0;
    for (count, byte) in bytes[..limit].iter().enumerate() {
        let Some(digit) = char::from(*byte).to_digit(radix) else {
            return Numeral { count, value };
        };
        value = value * radix as u64 + digit as u64;
    }
    Numeral {
        count: limit,
        value,
    }
}
