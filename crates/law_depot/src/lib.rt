//! No context of processes that share a depot is lost by a call that fails, nor has two lives, wherever a process dies.
//!
//! The function does nothing. It promises the law that it names.
#![tactic(auto)]

ghost use Rattle.law_depot.specs.Laws.{EachIsInOnePlace, NamesAreApart, OnlyDeathLoses};

/// Wherever processes that share a depot die, each context is in one place: on the device of one process, in one dump, in one
/// claimed dump, or lost with its process. No dump replaces another.
pub fn each_context_is_in_one_place()
    ensures place { EachIsInOnePlace }
    ensures names { NamesAreApart }
    ensures lost { OnlyDeathLoses }
{}
