//! Each kind of line once, a bad line for each reason, and the limits.

ghost use Rattle.std.specs.Prelude.{◌≡◌};
ghost use Rattle.script_lang.specs.Scripts.{lines_of};
ghost use Rattle.example_scripts.specs.LineCases.{AreSaid, AreSaidByNodes};
ghost use Rattle.example_scripts.specs.Things as things;
ghost use Rattle.example_scripts.specs.Requests.{requests};
ghost use Rattle.example_scripts.specs.Steps as steps;
ghost use Rattle.example_scripts.specs.Nodes as nodes;
ghost use Rattle.example_scripts.specs.Bad as bad;

/// Devices, contexts, domains, queues, regions and queue pairs are made, and two ends are connected.
pub fn things_are_made()
    ensures { AreSaid things.made }
{}

/// Memory is written and read, a region is dropped, and completions are polled.
pub fn memory_and_completions_are_looked_at()
    ensures { AreSaid things.looked_at }
{}

/// Requests of each kind and a receive are posted.
pub fn requests_are_posted()
    ensures { AreSaid requests }
{}

/// Ends are stepped, and datagrams are delivered, lost and shown.
pub fn ends_are_stepped()
    ensures { AreSaid steps.steps }
{}

/// Contexts are stopped, dumped, restored and released, and the world settles.
pub fn contexts_are_moved()
    ensures { AreSaid steps.moves }
{}

/// Lines without words, a comment, and a line with spaces around it.
pub fn blank_lines()
    ensures { AreSaid steps.blanks }
{}

/// A node links an end to the queue pair of another node, and steps its ends.
pub fn nodes_step_their_ends()
    ensures { AreSaidByNodes nodes.steps }
{}

/// A node makes contexts and moves them, and serves.
pub fn nodes_move_contexts()
    ensures { AreSaidByNodes nodes.moves }
{}

/// What a node's script may not say.
pub fn nodes_name_bad_lines()
    ensures { AreSaidByNodes nodes.bad }
{}

/// A bad line for each reason, named by its first offence.
pub fn reasons_of_bad_lines()
    ensures { AreSaid bad.reasons }
{}

/// Numbers one past their limits.
pub fn numbers_past_their_limits()
    ensures { AreSaid bad.limits }
{}

/// The longest line, of spaces, and one of a byte more.
pub fn long_lines()
    ensures { AreSaid bad.long }
{}

/// A script is cut into lines: a carriage return before a newline goes with it, and another one stays.
pub fn a_script_is_cut_into_lines()
    ensures { lines_of steps.script ≡ steps.its_lines }
{}
