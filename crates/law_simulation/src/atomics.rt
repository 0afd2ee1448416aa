//! The law of atomics: the machine follows the arrival of a compare and swap or an addition of the peer, the first one and
//! each repeat.
//!
//! The functions have no code. Each promises the law that it names.

ghost use Rattle.law_simulation.specs.Taken.{AreTakenWhere};
ghost use Rattle.law_simulation.specs.Atomics.{IsAtomTurn, IsAtomicRepeat};

/// The machine follows the expected atomic by one Atom, where an Atom is enabled: the word changes, the old value is answered,
/// and it is kept among the last replies.
pub fn atomics_are_taken()
    ensures { AreTakenWhere IsAtomTurn }
{}

/// The machine makes no step where an atomic is repeated: the word stays, and the kept old value is answered again. Where its
/// reply is kept no more, nothing is answered.
pub fn repeated_atomics_are_answered()
    ensures { AreTakenWhere IsAtomicRepeat }
{}

// How a crate above uses the law: it calls the function, and cites what it promises.
fn atomics_act_once()
    ensures { AreTakenWhere IsAtomicRepeat }
{
    repeated_atomics_are_answered();
}
