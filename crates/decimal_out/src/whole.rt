//! Whole numbers in decimal.

ghost use Rattle.std.specs.Prelude.{◌≡◌, ◌++◌, OnOk, OnErr};

use itoa::{Buffer, Integer};
use std::alloc::AllocError;

/// Appends a whole number in decimal, without needless zeros, and with a minus sign below 0. The buffer stays as it was
/// where memory is refused.
pub fn push_whole<I: Integer>(out: &mut Vec<u8>, number: I) -> Result<(), AllocError>
    ensures ok { OnOk result (out.new.items ≡ out.old.items ++ I.text number) }
    ensures err { OnErr result (out.new.items ≡ out.old.items) }
{
    out.extend_from_slice(Buffer::new().format(number).as_bytes())
}
