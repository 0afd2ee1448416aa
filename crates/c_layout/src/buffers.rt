//! What is written to buffers of the caller's.

ghost use Rattle.std.specs.Prelude.{◌≡◌, map};
ghost use Rattle.c_layout.specs.Told as told;
ghost use Rattle.c_layout.specs.Given as given;

use crate::codes::{NONE, OK};
use crate::layout::CCompletion;
use crate::told::completion_told;
use rdma_types::Completion;

/// Copies bytes, as many as both have.
pub fn copy(from: &[u8], out: &mut [u8])
    ensures { out.new ≡ given.overlaid from.now out.old }
{
    let count = out.len().min(from.len());
    out[..count].copy_from_slice(&from[..count]);
}

/// Writes completions, as many as both have.
pub fn write_completions(from: &[Completion], out: &mut [CCompletion])
    ensures { out.new ≡ given.overlaid (map told.completion_told from.now) out.old }
{
    for i in 0..out.len().min(from.len()) {
        out[i] = completion_told(&from[i]);
    }
}

/// Tells what was found, if it is there.
pub fn give<T: Copy>(found: Option<T>, out: &mut T) -> u32
    ensures result { result ≡ given.found_result found }
    ensures told { out.new ≡ given.found found out.old }
{
    match found {
        Some(told) => {
            *out = told;
            OK
        }
        None => NONE,
    }
}
