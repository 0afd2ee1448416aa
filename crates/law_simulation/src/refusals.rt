//! The law of refusals: the machine follows the arrival of the expected request of the peer where it is refused, or finds no
//! receive.
//!
//! The functions have no code. Each promises the law that it names.

ghost use Rattle.law_simulation.specs.Taken.{AreTakenWhere};
ghost use Rattle.law_simulation.specs.Refusals.{ChecksAgree, FindsNoReceive, IsInvalid, IsNotGranted, IsTooLong, MayNotAct};

/// The checks of an expected request at a responder are the tests of the machine's current request.
pub fn checks_agree()
    ensures { ChecksAgree }
{}

/// The machine follows the expected request that a responder refuses by one Refuse of the same reason: all work of the end is
/// flushed, the end goes to Error, and a NAK is sent. It follows one that finds no receive by Dry: it stays expected, and an
/// RNR NAK is sent.
pub fn refusals_are_taken()
    ensures invalid { AreTakenWhere IsInvalid }
    ensures access { AreTakenWhere IsNotGranted }
    ensures length { AreTakenWhere IsTooLong }
    ensures dry { AreTakenWhere FindsNoReceive }
{}

/// The machine follows each expected request on which it may not act.
pub fn idle_turns_are_taken()
    ensures { AreTakenWhere MayNotAct }
{}

// How a crate above uses the law: it calls the function, and cites what it promises.
fn misaligned_atomics_are_refused()
    ensures { AreTakenWhere IsInvalid }
{
    refusals_are_taken();
}
