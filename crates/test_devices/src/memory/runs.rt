//! Runs over the seam of two pages.

use byte_run::ByteRun;
use std::alloc::{AllocError, Global};

/// A run of these bytes.
pub(crate) fn run_of(alloc: Global, bytes: &[u8]) -> Result<ByteRun, AllocError> {
    let mut run = ByteRun::make(alloc);
    run.append(alloc, bytes)?;
    Ok(run)
}

/// The first two bytes of a run; None where it has fewer.
pub(crate) fn two_of(run: &ByteRun) -> Option<[u8; 2]> {
    if run.len() < 2 {
        return None;
    }
    let mut out = [0; 2];
    run.read(0, &mut out);
    Some(out)
}

/// Four bytes of a run from `at` on; None where it has fewer.
fn four_at(run: &ByteRun, at: u64) -> Option<[u8; 4]> {
    if run.len() < 4 || run.len() - 4 < at {
        return None;
    }
    let mut out = [9; 4];
    run.read(at, &mut out);
    Some(out)
}

/// Whether the piece of a run from `at` on has these bytes.
fn is_piece(run: &ByteRun, at: u64, wanted: &[u8]) -> bool {
    at < run.len() && run.piece(at) == wanted
}

/// A copy of a run that was made of two parts.
fn joined(alloc: Global, front: &[u8], back: &[u8]) -> Result<ByteRun, AllocError> {
    let mut run = run_of(alloc, front)?;
    run.append(alloc, back)?;
    run.copy(alloc)
}

/// Of a run over two pages: its length, four bytes over the seam, and whether each page's part is a piece.
fn told(alloc: Global) -> Result<(u64, Option<[u8; 4]>, [bool; 2]), AllocError> {
    let run = joined(alloc, &[0; 4095], &[1, 2, 3])?;
    let pieces = [is_piece(&run, 4095, &[1]), is_piece(&run, 4096, &[2, 3])];
    Ok((run.len(), four_at(&run, 4094), pieces))
}

#[test]
fn bytes_over_two_pages(rt: HostRuntime) -> Result<(), AllocError> {
    let told = told(rt.alloc())?;
    assert_eq!(rt; told, (4098, Some([0, 1, 2, 3]), [true, true]));
    Ok(())
}
