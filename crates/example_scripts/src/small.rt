//! Small scripts, and the words of commands.

ghost use Rattle.std.specs.Prelude.{◌≡◌, [], ◌∷◌, true, codes, None, Some};
ghost use Rattle.rdma_types.specs.declared.answers.Answer.TheVariants.{Done};
ghost use Rattle.rdma_types.specs.declared.verbs.Verb.TheVariants.{Context};
ghost use Rattle.script_lang.specs.declared.lines.LineWhy.TheVariants.{Word};
ghost use Rattle.example_scripts.specs.ASwapAndAWait as in_a_swap_and_a_wait;
ghost use Rattle.example_scripts.specs.GeneratedLines as in_generated_lines;
ghost use Rattle.law_headline.specs.Evaluate.{heard_in, said_in, written_for};
ghost use Rattle.program_rules.specs.Commands.{Audit, Bulk, Evacuate, Node, Play, Record, ShowDump, command_of};
ghost use Rattle.program_rules.specs.Texts.{bad_line_line};

/// An empty script has no bad line, and nothing is written for it.
pub fn nothing_is_said()
    ensures written { written_for [] ≡ [] }
    ensures good { (said_in []).bad ≡ None }
{}

/// A device is made.
pub fn one_device()
    ensures { written_for (codes "device 1 10.0.0.1\n") ≡ codes "ok\n" }
{}

/// An unknown word stands first on the third line, after two devices.
pub fn an_unknown_word()
    ensures written { written_for (codes "device 1 10.0.0.1\ndevice 2 10.0.0.2\nfly\n")
        ≡ codes "ok\nok\n" }
    ensures bad { (said_in (codes "device 1 10.0.0.1\ndevice 2 10.0.0.2\nfly\n")).bad
        ≡ Some (record { number = 3; offence = record { column = 1; why = Word } }) }
    ensures last { bad_line_line
        (record { number = 3; offence = record { column = 1; why = Word } })
        ≡ codes "bad line 3 column 1 word\n" }
{}

/// A stopped context is dumped, and then the world settles; the owner made the context and was told so.
pub fn a_dumped_context()
    ensures written { written_for (codes "device 1 10.0.0.1\ncontext e 1\nstop e\ndump e\nsettle\n")
        ≡ codes "ok\nok\nstopped\ndump 20 4d494744554d5000000201650000000000000000\nquiet 0\n" }
    ensures heard { heard_in (codes "device 1 10.0.0.1\ncontext e 1\nstop e\ndump e\nsettle\n")
        ≡ (Context (codes "e") true, Done) ∷ [] }
{}

/// The words of each command, and some of none.
pub fn words_of_commands()
    ensures play { command_of (codes "play" ∷ []) ≡ Some Play }
    ensures bulk { command_of (codes "bulk" ∷ codes "7" ∷ codes "2" ∷ codes "100" ∷ codes "0" ∷ [])
        ≡ Some (Bulk 7 (record { connections = 2; messages = 100; moves = 0 })) }
    ensures show_dump { command_of (codes "show-dump" ∷ codes "x" ∷ [])
        ≡ Some (ShowDump (codes "x")) }
    ensures none { command_of [] ≡ None }
    ensures too_many { command_of (codes "bulk" ∷ codes "7" ∷ codes "9" ∷ codes "100" ∷ codes "0"
        ∷ []) ≡ None }
    ensures more { command_of (codes "play" ∷ codes "x" ∷ []) ≡ None }
    ensures evacuate { command_of (codes "evacuate" ∷ codes "2" ∷ codes "3" ∷ codes "1" ∷ [])
        ≡ Some (Evacuate 2 (3 ∷ 1 ∷ [])) }
    ensures onto_itself { command_of (codes "evacuate" ∷ codes "2" ∷ codes "2" ∷ []) ≡ None }
    ensures audit { command_of (codes "audit" ∷ []) ≡ Some Audit }
    ensures recording { command_of (codes "record" ∷ []) ≡ Some Record }
    ensures node { command_of (codes "node" ∷ codes "1" ∷ codes "127.0.0.1:4801" ∷ [])
        ≡ Some (Node 1 (record { ip = 2130706433; port = 4801 })) }
    ensures no_device { command_of (codes "node" ∷ codes "0" ∷ codes "127.0.0.1" ∷ []) ≡ None }
    ensures no_address { command_of (codes "node" ∷ codes "1" ∷ codes "127.0.0" ∷ []) ≡ None }
{}

/// A compare and swap, and a send that waits for its timer.
pub fn a_swap_and_a_wait()
    ensures { written_for in_a_swap_and_a_wait.script ≡ in_a_swap_and_a_wait.written }
{}

/// Lines of each form that generated scripts have are read: none of them is bad.
pub fn generated_lines_are_good()
    ensures { (said_in in_generated_lines.script).bad ≡ None }
{}
