ghost use Rattle.std.specs.Prelude.{◌≡◌, ◌+◌, ◌≤◌, ◌++◌, decimal};
ghost use Rattle.arrayvec.specs.ArrayString.{array_string_len};

use crate::listing::ROOM;
use arrayvec::ArrayString;
use itoa::Buffer;

// The text that is being made, before it is known whether it fits where it is to go.
pub(crate) type Page = ArrayString<ROOM>;

// A number in decimal digits, of which there are at most 20. Inline, since a table of 128 sets takes a tenth more instructions with a call for each number.
#[inline]
pub(crate) fn push_number(page: &mut Page, n: u64)
    requires { array_string_len page.old + 20 ≤ 8192 }
    ensures bytes { page.new.bytes ≡ page.old.bytes ++ decimal n }
    ensures long { array_string_len page.new ≤ array_string_len page.old + 20 }
{
    page.push_str(Buffer::new().format(n));
}
