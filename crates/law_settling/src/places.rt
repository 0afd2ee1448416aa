//! The laws of places: settling moves no end, so that a connected end is found again where it was found once.
//!
//! The functions do nothing. Each promises the law that it names.

ghost use Rattle.law_settling.specs.Places.{CountsAreLinked, DeliveriesMarkNone, DeliveriesMarkOne, EventsKeepPlaces, OutlinesAreEnough, PlacedIsFound, PlacesAreOfOne, PlacesStayOn, RoundsAreLinked, RunsKeepPlaces, TimersMarkOne, TransmissionsMarkNone, VisitsAreLinked};

/// Where no two devices have an id, and the device that a delivery reaches is sound and has contexts of different names, each
/// event of settling keeps all devices, contexts and ends in their order, with their names and numbers, and connected ends
/// connected. Where all devices are so, each list of such events keeps them, and leaves all devices so.
pub fn places_stay()
    ensures event { EventsKeepPlaces }
    ensures run { RunsKeepPlaces }
    ensures on { PlacesStayOn }
    ensures outline { OutlinesAreEnough }
{}

/// At one place is one connected end, and its link is what is found of its name.
pub fn places_are_of_one()
    ensures one { PlacesAreOfOne }
    ensures found { PlacedIsFound }
{}

/// A delivery changes no mark but that of the end with its number, where that number is one end's; an expiry and the end of an
/// RNR timer change none but that of their end; and a transmission changes none.
pub fn marks_change_at_one_end()
    ensures delivery { DeliveriesMarkOne }
    ensures none { DeliveriesMarkNone }
    ensures timer { TimersMarkOne }
    ensures transmission { TransmissionsMarkNone }
{}

/// Where each context lives on one device, the visits of all live ends are those of the connected ones, since an end in Init is
/// not visited, and so is a round; the load is theirs; and what is left is left by them and by carried ends.
pub fn visits_are_of_connected_ends()
    ensures visits { VisitsAreLinked }
    ensures round { RoundsAreLinked }
    ensures counts { CountsAreLinked }
{}
