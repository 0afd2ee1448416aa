//! How a command that writes one line ends.

ghost use Rattle.std.specs.Prelude.{◌≡◌, ◌++◌, OnOk};
ghost use Rattle.std.specs.Fmt.{decimal};
ghost use Rattle.tools.specs.Endings.{IsWritten};

use host_ports::{Sink, WriteFault, write_all_of};
use itoa::Buffer;
use std::alloc::AllocError;

/// Puts a word and a number. Errors: `AllocError` when out of memory.
#[tactic(auto, using(std::proofs::lemmas::List::append_assoc))]
pub fn put(out: &mut Vec<u8>, word: &[u8], n: u64) -> Result<(), AllocError>
    ensures { OnOk result (out.new.items ≡ out.old.items ++ word.now ++ decimal n) }
{
    let mut digits = Buffer::new();
    out.extend_from_slice(word)?;
    out.extend_from_slice(digits.format(n).as_bytes())
}

/// Writes a text; the answer is that status, and 5 where the text could not be written.
pub fn end_with<K: Sink>(text: &[u8], status: u8, output: &mut K) -> u8
    ensures { IsWritten (K.held output.old) (K.held output.new) (K.faults output.old)
        (K.faults output.new) text.now status result }
{
    match write_all_of(output, text) {
        Ok(()) => status,
        Err(WriteFault) => 5,
    }
}
