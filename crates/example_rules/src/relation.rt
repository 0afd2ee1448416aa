//! Worked runs of a world and of the machine that follows it: the relation's facts hold at each state, and the steps that are
//! named at the events are those of the machine's run.

ghost use Rattle.std.specs.Prelude.{◌≡◌, map, true, false};
ghost use Rattle.protocol.specs.State.{empty_world};
ghost use Rattle.protocol.specs.Evaluate.{reached};
ghost use Rattle.packetless_machine.specs.Machine.{empty};
ghost use Rattle.example_rules.specs.Evaluate.{named_at, named_in, settles_by, stands_at};
ghost use Rattle.example_rules.specs.RelationOpening.{a_q, b_q};
ghost use Rattle.example_rules.specs.Choices as choices;
ghost use Rattle.example_rules.specs.Settlings as settlings;
ghost use Rattle.example_rules.specs.Worlds as moving;
ghost use Rattle.example_rules.specs.Refusing as refusing;
ghost use Rattle.example_rules.specs.Ending as ending;

/// The relation holds at five states of each of three runs: of one in which a message is moved inside (stop, a husk's answer, restore,
/// resume, the rest of the message, an atomic, a Read and a fenced request); of one with a receiver that is not ready, expiries and
/// refusals; and of one with connections that end in errors.
pub fn three_runs_stand()
    ensures moved_first { stands_at moving.world_1 moving.machine_1 a_q b_q ≡ true }
    ensures moved_second { stands_at moving.world_2 moving.machine_2 a_q b_q ≡ true }
    ensures moved_third { stands_at moving.world_3 moving.machine_3 a_q b_q ≡ true }
    ensures moved_fourth { stands_at moving.world_4 moving.machine_4 a_q b_q ≡ true }
    ensures moved_fifth { stands_at moving.world_5 moving.machine_5 a_q b_q ≡ true }
    // .. and not at the machine's state before its last steps.
    ensures moved_later_alone { stands_at moving.world_5 moving.machine_4 a_q b_q ≡ false }
    ensures refused_first { stands_at refusing.world_1 refusing.machine_1 a_q b_q ≡ true }
    ensures refused_second { stands_at refusing.world_2 refusing.machine_2 a_q b_q ≡ true }
    ensures refused_third { stands_at refusing.world_3 refusing.machine_3 a_q b_q ≡ true }
    ensures refused_fourth { stands_at refusing.world_4 refusing.machine_4 a_q b_q ≡ true }
    ensures refused_fifth { stands_at refusing.world_5 refusing.machine_5 a_q b_q ≡ true }
    ensures ended_first { stands_at ending.world_1 ending.machine_1 a_q b_q ≡ true }
    ensures ended_second { stands_at ending.world_2 ending.machine_2 a_q b_q ≡ true }
    ensures ended_third { stands_at ending.world_3 ending.machine_3 a_q b_q ≡ true }
    ensures ended_fourth { stands_at ending.world_4 ending.machine_4 a_q b_q ≡ true }
    ensures ended_fifth { stands_at ending.world_5 ending.machine_5 a_q b_q ≡ true }
{}

/// Six events of one world, at one state of the machine: the first piece of a message again, its second piece, a datagram that was
/// never sent, an expiry, a loss and a stop.
pub fn six_events_by_name()
    ensures { map (named_at moving.world_1 moving.machine_1) choices.events ≡ choices.inner }
{}

/// The steps that are named in three runs are those of the machine's runs: where a message is moved inside; with a receiver that is
/// not ready, expiries and refusals; and with connections that end in errors.
pub fn three_runs_by_name()
    ensures moved_first { named_in empty_world empty moving.events_1 ≡ moving.steps_1 }
    ensures moved_second { named_in moving.world_1 moving.machine_1 moving.events_2
        ≡ moving.steps_2 }
    ensures moved_third { named_in moving.world_2 moving.machine_2 moving.events_3
        ≡ moving.steps_3 }
    ensures moved_fourth { named_in moving.world_3 moving.machine_3 moving.events_4
        ≡ moving.steps_4 }
    ensures moved_fifth { named_in moving.world_4 moving.machine_4 moving.events_5
        ≡ moving.steps_5 }
    ensures refused_first { named_in empty_world empty refusing.events_1 ≡ refusing.steps_1 }
    ensures refused_second { named_in refusing.world_1 refusing.machine_1 refusing.events_2
        ≡ refusing.steps_2 }
    ensures refused_third { named_in refusing.world_2 refusing.machine_2 refusing.events_3
        ≡ refusing.steps_3 }
    ensures refused_fourth { named_in refusing.world_3 refusing.machine_3 refusing.events_4
        ≡ refusing.steps_4 }
    ensures refused_fifth { named_in refusing.world_4 refusing.machine_4 refusing.events_5
        ≡ refusing.steps_5 }
    ensures ended_first { named_in empty_world empty ending.events_1 ≡ ending.steps_1 }
    ensures ended_second { named_in ending.world_1 ending.machine_1 ending.events_2
        ≡ ending.steps_2 }
    ensures ended_third { named_in ending.world_2 ending.machine_2 ending.events_3
        ≡ ending.steps_3 }
    ensures ended_fourth { named_in ending.world_3 ending.machine_3 ending.events_4
        ≡ ending.steps_4 }
    ensures ended_fifth { named_in ending.world_4 ending.machine_4 ending.events_5
        ≡ ending.steps_5 }
{}

/// The events of three settlings: a message and an atomic go through; a lost piece is asked for by a NAK; and where the atomic is lost
/// as well, the time of the end runs out.
pub fn three_settlings_by_name()
    ensures whole { settles_by moving.world_1 ≡ settlings.whole }
    ensures again { settles_by (reached moving.world_1 settlings.loses_a_piece)
        ≡ settlings.sent_again }
    ensures expired { settles_by (reached moving.world_1 settlings.loses_both) ≡ settlings.expired }
{}
