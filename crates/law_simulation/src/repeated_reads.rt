//! The law of repeated READ requests: the machine follows the arrival of a READ request whose numbers are before the expected
//! one.
//!
//! The functions do nothing. Each promises the law that it names.

ghost use Rattle.law_simulation.specs.Taken.{AreTakenWhere};
ghost use Rattle.law_simulation.specs.Rereads.{IsReadRepeat};

/// The machine follows a repeated READ request: where what it asks for, all or the rest of its Read, is granted now, each piece is
/// offered once more, as its response carries it; else no step is made, and nothing is answered.
pub fn rereads_are_taken()
    ensures { AreTakenWhere IsReadRepeat }
{}

// How a crate above uses the law: it calls the function, and cites what it promises.
fn repeated_reads_follow()
    ensures { AreTakenWhere IsReadRepeat }
{
    rereads_are_taken();
}
