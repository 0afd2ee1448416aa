//! The laws of names: no two devices have an id, and no name is held twice, by a live context or a carried image.
//!
//! The functions do nothing. Each promises the law that it names.

ghost use Rattle.law_settling.specs.OwnNames.{EventsKeepOwn, NamesAreApart, NamesAreEnough, RunsHaveOwn, RunsKeepOwn};

/// The empty world has ids and names of their own, and each lawful event keeps them, also where it is refused. So each world
/// has them that comes of lawful events.
pub fn names_stay_apart()
    ensures event { EventsKeepOwn }
    ensures on { RunsKeepOwn }
    ensures run { RunsHaveOwn }
{}

/// Where no name is held twice, each context lives on one device, and no two contexts of a device have a name.
pub fn names_are_enough()
    ensures home { NamesAreEnough }
    ensures apart { NamesAreApart }
{}
