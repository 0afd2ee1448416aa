//! A device beside its copy, and an image that stays with its owner.

ghost use Rattle.protocol.specs.Lawful.{IsLawful};

use crate::net::{Net, Said};
use crate::opening::opened;
use crate::plays::store;
use device_core::Device;
use protocol::ContextImage;
use rdma_types::Refusal;
use std::alloc::Global;

/// The owner of `a` stores a byte.
fn put(net: &mut Net, alloc: Global) -> Option<Said> {
    let bytes = vec![in alloc; 0xde].ok()?;
    store(net, bytes)
}

/// Where a copy of device 1 differs from it, before and after the owner of `a` stores a byte, and from device 2.
fn compare(net: &mut Net, alloc: Global, copy: &Device) -> Option<[Option<(u64, u64)>; 3]> {
    let before = net.differs(1, copy)?;
    let _ = put(net, alloc)?;
    let after = net.differs(1, copy)?;
    Some([before, after, net.differs(2, copy)?])
}

fn differences(alloc: Global) -> Option<[Option<(u64, u64)>; 3]> {
    let mut net = opened(alloc)?;
    let copy = net.copy(1)?;
    compare(&mut net, alloc, &copy)
}

/// The byte of the region is 0 in the copy, and of two devices the ids come first.
#[test]
fn a_copy_stands_apart(rt: HostRuntime) {
    let told = differences(rt.alloc());
    assert_eq!(rt; told, Some([None, Some((0xde, 0)), Some((2, 1))]));
}

/// Puts an image on device 2, and then on device 3.
fn put_twice(net: &mut Net, image: &ContextImage) -> Option<[Said; 2]>
    requires { IsLawful image.now }
{
    Some([net.restore(2, image)?, net.restore(3, image)?])
}

fn restored(alloc: Global) -> Option<[Said; 2]> {
    let mut net = opened(alloc)?;
    let image = net.stop(2, b"b")?;
    put_twice(&mut net, &image)
}

/// On device 2 the husk of `b` is there.
#[test]
fn an_image_is_put_where_no_husk_is(rt: HostRuntime) {
    let told = restored(rt.alloc());
    assert!(rt; told == Some([Said::Refused(Refusal::NumberTaken), Said::Done]));
}
