//! Requests act once.

ghost use Rattle.law_simulation.specs.Once.{ActsByOne, ActsOnce};

/// At the machine a Write, Send, Read or atomic acts at most once, and in the order of posting: a step lets none act, or is a
/// turn of its queue pair by which the next one acts; and in each run as many act as steps let one act.
pub fn requests_act_once()
    ensures step { ActsByOne }
    ensures run { ActsOnce }
{}
