//! The whole: a world of a receiver and its senders, and what is known of each connection.

use crate::channels::Channel;
use mailbox_rules::Due;
use std::marker::Model;
use world_core::World;

/// A mailbox of one receiver and 1 to 8 senders over reliable connections, whose contexts may move.
#[derive(Drop)]
pub struct Mailbox {
    pub(crate) world: World,
    /// Of sender 1, sender 2, and so on.
    pub(crate) channels: Vec<Channel>,
    /// What is still to be done for completions that were polled, in order.
    pub(crate) owed: Vec<Due>,
}

impl Model for Mailbox {
    ghost use Rattle.std.specs.Prelude.{◌≤◌, length};
    ghost use Rattle.mailbox_rules.specs.State as rules;

    ghost Value = { rules.Mail };

    ghost view = { λ m. record { world = m.world; channels = m.channels.items; owed = m.owed.items } };

    ghost invariant = { λ m. length m.channels.items ≤ 8 };
}
