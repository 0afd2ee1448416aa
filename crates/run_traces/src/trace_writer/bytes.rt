//! Bytes that are put behind others.

ghost use Rattle.std.specs.Prelude.{◌≡◌, ◌++◌, ◌∷◌, [], OnOk};
ghost use Rattle.std.specs.Fmt.{decimal};
ghost use Rattle.script_lang.specs.Printed.{object_text};

use rdma_types::ObjName;
use std::alloc::AllocError;

/// Puts bytes.
pub fn put(out: &mut Vec<u8>, bytes: &[u8]) -> Result<(), AllocError>
    ensures { OnOk result (out.new.items ≡ out.old.items ++ bytes.now) }
{
    out.extend_from_slice(bytes)
}

/// Puts a word and the name of a thing.
#[tactic(auto, using(std::proofs::lemmas::List::append_assoc))]
pub fn put_object(out: &mut Vec<u8>, word: &[u8], object: &ObjName) -> Result<(), AllocError>
    ensures { OnOk result (out.new.items ≡ out.old.items ++ (word.now ++ object_text object.now)) }
{
    put(out, word)?;
    put(out, object.context.as_bytes())?;
    put(out, b".")?;
    put(out, object.name.as_bytes())
}

/// Puts a space and a number.
#[tactic(auto, using(std::proofs::lemmas::List::append_assoc))]
pub fn put_number(out: &mut Vec<u8>, n: u32) -> Result<(), AllocError>
    ensures { OnOk result (out.new.items ≡ out.old.items ++ (32 ∷ decimal n)) }
{
    let mut buffer = itoa::Buffer::new();
    put(out, b" ")?;
    put(out, buffer.format(n).as_bytes())
}
