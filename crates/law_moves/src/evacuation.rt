//! The laws of emptying a device: where its contexts are in the end, and that none is lost on the way.
//!
//! The functions do nothing. Each promises the law that it names.

ghost use Rattle.law_moves.specs.Evacuated.{DevicesAreEmptied, DevicesKeepTheRest, EvacuationsAreFollowed, NothingIsLost};

use law_headline::lines_are_followed;
use law_settling::steps::{settling_follows, settling_is_events};
use law_settling::weights::taking_lightens;
use protocol::a_restored_context_is_its_moved_image;

/// The machine follows the steps of an evacuation of any world that stands for one of its states.
pub fn evacuations_are_followed()
    ensures { EvacuationsAreFollowed }
{
    lines_are_followed();
    settling_is_events();
    settling_follows();
    taking_lightens();
    a_restored_context_is_its_moved_image();
}

/// Where an evacuation has no fault, no context lives on the device. The list names each context that lived there, once and in
/// order, with the target on which it then lives; and each, as it was restored, is the image that its stop gave, but for what a
/// move changes.
pub fn devices_are_emptied()
    ensures { DevicesAreEmptied }
{
    lines_are_followed();
    settling_is_events();
    settling_follows();
    taking_lightens();
    a_restored_context_is_its_moved_image();
}

/// Where a context stays, it lives on the device in the end, as do those after it; those before it moved.
pub fn devices_keep_the_rest()
    ensures { DevicesKeepTheRest }
{
    lines_are_followed();
    settling_is_events();
    settling_follows();
    taking_lightens();
    a_restored_context_is_its_moved_image();
}

/// However far an evacuation has come, and also inside a settling, each context that lived or was carried before lives on one
/// device or is carried in one image.
pub fn nothing_is_lost()
    ensures { NothingIsLost }
{
    lines_are_followed();
    settling_is_events();
    settling_follows();
    taking_lightens();
    a_restored_context_is_its_moved_image();
}
