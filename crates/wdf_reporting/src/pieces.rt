//! The pieces of a line, appended to a text.

ghost use Rattle.std.specs.Prelude.{◌≡◌, ◌++◌, ◌∷◌, [], OnOk, decimal};

use itoa::Buffer;
use std::alloc::AllocError;

// A label and the word behind it.
pub(crate) fn push_word(out: &mut Vec<u8>, label: &[u8], word: &[u8]) -> Result<(), AllocError>
    ensures { OnOk result (out.new.items ≡ out.old.items ++ label.now ++ word.now) }
{
    out.extend_from_slice(label)?;
    out.extend_from_slice(word)?;
    Ok(())
}

// A label and the number behind it.
pub(crate) fn push_number(out: &mut Vec<u8>, label: &[u8], n: u64) -> Result<(), AllocError>
    ensures { OnOk result (out.new.items ≡ out.old.items ++ label.now ++ decimal n) }
{
    out.extend_from_slice(label)?;
    out.extend_from_slice(Buffer::new().format(n).as_bytes())?;
    Ok(())
}

// A line of a label and the number behind it.
pub(crate) fn push_number_line(out: &mut Vec<u8>, label: &[u8], n: u64) -> Result<(), AllocError>
    ensures { OnOk result (out.new.items ≡ out.old.items ++ (label.now ++ decimal n) ++ 10 ∷ []) }
{
    push_number(out, label, n)?;
    out.push(b'\n')?;
    Ok(())
}
