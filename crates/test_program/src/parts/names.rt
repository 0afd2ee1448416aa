//! Each public call once, on values from outside.

use bitflags::Flags;
use rdma_types::{Items, Name, Rights};
use std::alloc::{AllocError, Global};

/// Whether a text is a name, which has its bytes.
fn is_name(text: &[u8]) -> bool {
    match Name::read(text) {
        Some(name) => name.as_bytes() == text,
        None => false,
    }
}

#[test]
fn names_are_letters_digits_and_low_lines(rt: HostRuntime) {
    for text in ["a", "a_1", "abcdefghijklmno9"] {
        assert!(rt; is_name(text.as_bytes()), "{text}");
    }
    for text in ["", "1a", "_a", "A", "a.b", "abcdefghijklmnop1"] {
        assert!(rt; Name::read(text.as_bytes()).is_none(), "{text}");
    }
}

/// How many items a list of two has when a third is put to it, and whether they are these, before and after it is taken apart.
fn third(alloc: Global) -> Result<(usize, bool, bool), AllocError> {
    let mut list = Items::new(vec![in alloc; 1u8, 2]?);
    list.push(3)?;
    let count = list.len();
    let held = list.as_slice() == [1, 2, 3].as_slice();
    Ok((
        count,
        held,
        list.into_vec().as_slice() == [1, 2, 3].as_slice(),
    ))
}

#[test]
fn lists_hold_their_items(rt: HostRuntime) -> Result<(), AllocError> {
    assert_eq!(rt; third(rt.alloc())?, (3, true, true));
    Ok(())
}

#[test]
fn rights_are_joined_and_tested(rt: HostRuntime) {
    let both = Rights::LOCAL_WRITE.union(Rights::REMOTE_READ);
    let tests = [
        both.contains(Rights::REMOTE_READ),
        both.contains(Rights::REMOTE_WRITE),
        both.contains(Rights(0)),
        Rights(0).is_empty(),
    ];
    assert_eq!(rt; (both.bits(), tests), (5, [true, false, true, true]));
}
