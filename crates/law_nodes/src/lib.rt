//! What nodes do: the steps of a device behind the calls of a run, why the answers of several nodes are legal, and what they may change.
//!
//! The functions do nothing. Each promises the law that it names.
#![tactic(auto)]

ghost use Rattle.law_nodes.specs.Laws.{CallsAreActs, FittingDumpsReadBack, NodeIsBounded, NodesAreBounded, NodesAreFollowed, ServingIsActs};

use law_dump_round_trip::what_is_written_reads_back;
use law_orders::prepared_orders_are_legal;

/// Wherever a run of a node is cut off, its calls are those of acts on a new device: each datagram that was taken arrives, what
/// is sent is what the steps of the device send, and what is written is the answers of these steps.
pub fn calls_are_acts()
    ensures { CallsAreActs }
{}

/// What a served device does by its rules, turn after turn and line after line, is acts on a new device: the events of a turn, and for
/// each line that was done an event, a stop or a restore. What they send waits to go out, in their order.
pub fn serving_is_acts()
    ensures { ServingIsActs }
{}

/// Where several nodes run, each on a device of its own and driven by a script or by lines, the answers that are heard at all of them are answers that the packetless
/// machine gives, by the premises of `AreComposed`.
pub fn nodes_are_followed()
    ensures { NodesAreFollowed }
{
    prepared_orders_are_legal();
}

/// Whatever datagrams nodes take, also such as none of them sent: a byte of a context's memory changes only by a line of its node that
/// stores there, or that makes or drops its region; by a stop or a restore of its context; or by an arrival at a connected end, under a
/// key and a right that grant that byte then, or in a place that a line posted. Of all else an arrival changes that one end and its two
/// completion queues, and any other act its own context.
pub fn nodes_change_what_they_may()
    ensures node { NodeIsBounded }
    ensures nodes { NodesAreBounded }
{}

/// The dump of a lawful image whose numbers fit their fields reads as that image, as `AreComposed` asks of dumps that are put.
pub fn fitting_dumps_read_back()
    ensures { FittingDumpsReadBack }
{
    what_is_written_reads_back();
}
