//! What settling leaves.

ghost use Rattle.std.specs.Prelude.{◌≡◌, ◌++◌, flat_map, IfOk, IfSome, OnOk};
ghost use Rattle.protocol.specs.Settle.{left_image, unfinished};
ghost use Rattle.world_core.specs.Lives.{live_list};
ghost use Rattle.settle_core.specs.Left.{left_image_of, left_view, view_why};

use crate::notes::known_ends;
use protocol::EndImage;
use rdma_types::{Items, Name, ObjName, UnfinishedReason};
use std::alloc::{AllocError, Global};
use world_core::{ContextImage, LinkView, LiveEnd, World};

/// Why the untold requests of a connected end are left; None where it has none.
fn left_why(link: &LinkView) -> Option<UnfinishedReason>
    ensures { result ≡ view_why link.now }
{
    if link.untold == 0 {
        return None;
    }
    if link.paused {
        return Some(UnfinishedReason::Paused);
    }
    if link.resuming {
        return Some(UnfinishedReason::Resuming);
    }
    Some(UnfinishedReason::NoReceive)
}

/// A live end with its reason, behind others, where it has untold requests.
fn push_end(left: &mut Vec<(ObjName, UnfinishedReason)>, end: &LiveEnd) -> Result<(), AllocError>
    ensures { OnOk result (left.new.items ≡ left.old.items ++ left_view end.now) }
{
    let Some(link) = &end.link else {
        return Ok(());
    };
    let Some(why) = left_why(link) else {
        return Ok(());
    };
    left.push((end.name, why))?;
    Ok(())
}

/// The live ends with untold requests, with their reasons, behind others.
fn push_live(
    left: &mut Vec<(ObjName, UnfinishedReason)>,
    ends: &[LiveEnd],
) -> Result<(), AllocError>
    ensures { OnOk result (left.new.items ≡ left.old.items ++ flat_map left_view ends.now) }
{
    for end in ends {
        push_end(left, end)?;
    }
    Ok(())
}

/// An end of a carried context, behind others, where it has untold requests.
fn push_carried(
    left: &mut Vec<(ObjName, UnfinishedReason)>,
    context: Name,
    end: &EndImage,
) -> Result<(), AllocError>
    ensures { OnOk result (left.new.items ≡ left.old.items ++ left_image context end.now) }
{
    if end.untold.len() == 0 {
        return Ok(());
    }
    let name = ObjName {
        context,
        name: end.name,
    };
    left.push((name, UnfinishedReason::Carried))?;
    Ok(())
}

/// The ends of a carried context with untold requests, behind others.
fn push_image(
    left: &mut Vec<(ObjName, UnfinishedReason)>,
    image: &ContextImage,
) -> Result<(), AllocError>
    ensures { OnOk result (left.new.items ≡ left.old.items ++ left_image_of image.now) }
{
    let ends = image.ends.as_slice();
    for end in ends {
        push_carried(left, image.name, end)?;
    }
    Ok(())
}

/// The ends of carried contexts with untold requests, behind others.
fn push_images(
    left: &mut Vec<(ObjName, UnfinishedReason)>,
    images: &[ContextImage],
) -> Result<(), AllocError>
    ensures { OnOk result (left.new.items ≡ left.old.items ++ flat_map left_image_of images.now) }
{
    for image in images {
        push_image(left, image)?;
    }
    Ok(())
}

/// Each end with untold requests and its reason: live ends first, then those of carried contexts. The live ends are not
/// listed again where they were.
pub(crate) fn unfinished(
    alloc: Global,
    world: &World,
    listed: Option<Items<LiveEnd>>,
) -> Result<Items<(ObjName, UnfinishedReason)>, AllocError>
    requires { IfSome listed (λ ends. ends ≡ live_list world.now) }
    ensures { IfOk result (λ left. left ≡ unfinished world.now) }
{
    let ends = known_ends(alloc, world, listed)?;
    let mut left = Vec::new(alloc);
    push_live(&mut left, ends.as_slice())?;
    push_images(&mut left, world.images())?;
    Ok(Items::new(left))
}
