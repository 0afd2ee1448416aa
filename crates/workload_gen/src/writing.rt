//! Text put after what is there.

ghost use Rattle.std.specs.Prelude.{◌≡◌, ◌++◌, OnOk};
ghost use Rattle.std.specs.Fmt.{decimal};

use std::alloc::AllocError;

/// Puts a text at the end. Errors: `AllocError` when out of memory; what `out` then holds is not said.
pub fn put(out: &mut Vec<u8>, text: &[u8]) -> Result<(), AllocError>
    ensures { OnOk result (out.new.items ≡ out.old.items ++ text.now) }
{
    out.extend_from_slice(text)
}

/// Puts a text at the end, and a number in decimal digits. Errors: `AllocError` when out of memory; what `out` then
/// holds is not said.
pub fn put_number(out: &mut Vec<u8>, text: &[u8], n: u64) -> Result<(), AllocError>
    ensures { OnOk result (out.new.items ≡ out.old.items ++ (text.now ++ decimal n)) }
{
    let mut buffer = itoa::Buffer::new();
    put(out, text)?;
    put(out, buffer.format(n).as_bytes())
}
