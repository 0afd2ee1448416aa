//! What becomes of the contexts of a device, as text.

ghost use Rattle.std.specs.Prelude.{◌≡◌, ◌++◌, flat_map, None, Some, OnOk, IfOk};
ghost use Rattle.protocol.specs.State as state;
ghost use Rattle.evac_rules.specs.Evacuation.{NoSuch, Stays, evacuation};
ghost use Rattle.program_rules.specs.Texts.{emptied_line, evacuation_text, moved_line, stay_why_text};
ghost use Rattle.law_kept_datagrams.specs.Alike.{with_kept_datagrams};
ghost use Rattle.commands.specs.Stopping.{is_empty};

use evac_plan::{EvacFault, Shifted, StayReason, evacuate};
use itoa::Buffer;
use rdma_types::Name;
use settle_core::Rounds;
use std::alloc::{AllocError, Global};
use world_core::World;

/// What is to be written of an evacuation, and whether the device is empty.
#[derive(Drop)]
pub(crate) struct EvacuationReport {
    pub(crate) text: Vec<u8>,
    pub(crate) is_empty: bool,
}

/// The word of a reason.
fn why_word(why: StayReason) -> &'static [u8]
    ensures { result.now ≡ stay_why_text why }
{
    match why {
        StayReason::PeerMoving => b"peermoving",
        StayReason::TooMany => b"toomany",
        StayReason::NoTarget => b"notarget",
    }
}

/// Puts the line of a context that moved.
#[tactic(auto, using(std::proofs::lemmas::List::append_assoc))]
fn put_moved(out: &mut Vec<u8>, shifted: &Shifted) -> Result<(), AllocError>
    ensures { OnOk result (out.new.items ≡ out.old.items ++ moved_line shifted.now) }
{
    let mut digits = Buffer::new();
    out.extend_from_slice(b"moved ")?;
    out.extend_from_slice(shifted.context.as_bytes())?;
    out.extend_from_slice(b" ")?;
    out.extend_from_slice(digits.format(u64::from(shifted.target)).as_bytes())?;
    out.extend_from_slice(b"\n")
}

/// Puts the last line where a context stays.
#[tactic(auto, using(std::proofs::lemmas::List::append_assoc))]
fn put_stays(out: &mut Vec<u8>, context: Name, why: StayReason) -> Result<(), AllocError>
    ensures { OnOk result (out.new.items ≡ out.old.items
        ++ emptied_line (Some (Stays context why))) }
{
    out.extend_from_slice(b"stays ")?;
    out.extend_from_slice(context.as_bytes())?;
    out.extend_from_slice(b" ")?;
    out.extend_from_slice(why_word(why))?;
    out.extend_from_slice(b"\n")
}

/// The lines of the contexts that moved.
fn moved_text(alloc: Global, moved: &[Shifted]) -> Result<Vec<u8>, AllocError>
    ensures { IfOk result (λ text. text.items ≡ flat_map moved_line moved.now) }
{
    let mut text = Vec::new(alloc);
    for shifted in moved {
        put_moved(&mut text, shifted)?;
    }
    Ok(text)
}

/// What is to be written where the device is empty.
fn tale_of_empty(alloc: Global, moved: &[Shifted]) -> Result<EvacuationReport, AllocError>
    ensures { IfOk result (λ tale. (tale.text.items
        ≡ flat_map moved_line moved.now ++ emptied_line None) × (tale.is_empty ≡ is_empty None)) }
{
    let mut text = moved_text(alloc, moved)?;
    text.extend_from_slice(b"empty\n")?;
    Ok(EvacuationReport {
        text,
        is_empty: true,
    })
}

/// What is to be written where no such device is there.
fn tale_of_none(alloc: Global) -> Result<EvacuationReport, AllocError>
    ensures { IfOk result (λ tale. (tale.text.items ≡ emptied_line (Some NoSuch))
        × (tale.is_empty ≡ is_empty (Some NoSuch))) }
{
    let mut text = Vec::new(alloc);
    text.extend_from_slice(b"refused NoSuch\n")?;
    Ok(EvacuationReport {
        text,
        is_empty: false,
    })
}

/// What is to be written where a context stays.
fn tale_of_one(
    alloc: Global,
    moved: &[Shifted],
    context: Name,
    why: StayReason,
) -> Result<EvacuationReport, AllocError>
    ensures { IfOk result (λ tale. (tale.text.items
        ≡ flat_map moved_line moved.now ++ emptied_line (Some (Stays context why)))
        × (tale.is_empty ≡ is_empty (Some (Stays context why)))) }
{
    let mut text = moved_text(alloc, moved)?;
    put_stays(&mut text, context, why)?;
    Ok(EvacuationReport {
        text,
        is_empty: false,
    })
}

/// Empties the device, and gives what is to be written of it.
pub(crate) fn tale_of(
    alloc: Global,
    world: &mut World,
    from: u8,
    targets: &[u8],
) -> Result<EvacuationReport, AllocError>
    ensures { IfOk result (λ tale. (w : state.World) → world.old ≡ with_kept_datagrams w
        → (tale.text.items ≡ evacuation_text (evacuation w from targets.now))
        × (tale.is_empty ≡ is_empty (evacuation w from targets.now).fault)) }
{
    match evacuate(alloc, world, &Rounds, from, targets) {
        Ok(moved) => tale_of_empty(alloc, moved.as_slice()),
        Err(EvacFault::NoSuch) => tale_of_none(alloc),
        Err(
            EvacFault::Stays {
                moved,
                context,
                why,
            },
        ) => tale_of_one(alloc, moved.as_slice(), context, why),
        Err(EvacFault::OutOfMemory) => Err(AllocError),
    }
}
