//! Lines and decimal digits, appended to a buffer.

ghost use Rattle.std.specs.Prelude.{◌≡◌, ◌++◌, ◌∷◌, [], OnErr, OnOk, decimal};
ghost use Rattle.std.specs.Fmt.{signed_decimal};

use itoa::Buffer;
use std::alloc::AllocError;

/// Appends the bytes and LF. On want of memory the buffer is unchanged.
pub fn push_line(out: &mut Vec<u8>, line: &[u8]) -> Result<(), AllocError>
    ensures ok { OnOk result (out.new.items ≡ out.old.items ++ line.now ++ 10 ∷ []) }
    ensures err { OnErr result (out.new.items ≡ out.old.items) }
{
    out.try_reserve(line.len() + 1)?;
    out.extend_from_slice(line)?;
    out.extend_from_slice(b"\n")
}

/// Appends the decimal digits, `0` for 0. On want of memory the buffer is unchanged.
pub fn push_u128(out: &mut Vec<u8>, n: u128) -> Result<(), AllocError>
    ensures ok { OnOk result (out.new.items ≡ out.old.items ++ decimal n) }
    ensures err { OnErr result (out.new.items ≡ out.old.items) }
{
    out.extend_from_slice(Buffer::new().format(n).as_bytes())
}

/// Appends the decimal digits, with `-` before those of a negative number. On want of memory the
/// buffer is unchanged.
pub fn push_i128(out: &mut Vec<u8>, n: i128) -> Result<(), AllocError>
    ensures ok { OnOk result (out.new.items ≡ out.old.items ++ signed_decimal n) }
    ensures err { OnErr result (out.new.items ≡ out.old.items) }
{
    out.extend_from_slice(Buffer::new().format(n).as_bytes())
}
