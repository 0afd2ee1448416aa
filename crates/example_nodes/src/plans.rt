//! Worked examples of scripts of a node, evaluated by the prover: what is written for them and what is sent, as two other
//! descriptions of these rules have it.
//!
//! The functions do nothing. Each promises the equations that it names.

ghost use Rattle.std.specs.Prelude.{◌≡◌, [], ◌∷◌, ◌++◌, codes, None, Some};
ghost use Rattle.protocol.specs.declared.dumps.DumpWhy.TheVariants.{Short};
ghost use Rattle.script_lang.specs.declared.lines.LineWhy.TheVariants.{Word};
ghost use Rattle.example_nodes.specs.Evaluate.{run_of};
ghost use Rattle.example_nodes.specs.Things as things;
ghost use Rattle.node_rules.specs.Plan.{AllAnswered, BadDump, BadLine, Missing};

/// An empty script starts the link, and nothing is written for it.
pub fn nothing_is_said()
    ensures { run_of 1 things.one [] (things.outside [] [])
        ≡ record { ending = AllAnswered; outside = things.outside [] [] } }
{}

/// A write arrives over the link, acts, and is acknowledged.
pub fn a_write_arrives()
    ensures text { (run_of 2 things.two things.serving_script
        (things.outside (things.write ∷ []) [])).outside.text
        ≡ things.serving_text ++ codes "bytes deadbeef\n" }
    ensures sent { (run_of 2 things.two things.serving_script
        (things.outside (things.write ∷ []) [])).outside.sent
        ≡ things.with_one (codes "1100ffff00010001000000641f00000100000000") ∷ [] }
    ensures ending { (run_of 2 things.two things.serving_script
        (things.outside (things.write ∷ []) [])).ending ≡ AllAnswered }
{}

/// A datagram that is cut off, and three that are forged, change no byte.
pub fn forged_datagrams()
    ensures cut { (run_of 2 things.two things.serving_script
        (things.outside (things.cut ∷ []) [])).outside.text
        ≡ things.serving_text ++ codes "bytes 00000000\n" }
    ensures cut_sent { (run_of 2 things.two things.serving_script
        (things.outside (things.cut ∷ []) [])).outside.sent ≡ [] }
    ensures key { (run_of 2 things.two things.serving_script
        (things.outside (things.under_the_local_key ∷ []) [])).outside.text
        ≡ things.serving_text ++ codes "bytes 00000000\n" }
    ensures key_sent { (run_of 2 things.two things.serving_script
        (things.outside (things.under_the_local_key ∷ []) [])).outside.sent
        ≡ things.with_one (codes "1100ffff00010001000000646200000000000000") ∷ [] }
    ensures longer { (run_of 2 things.two things.serving_script
        (things.outside (things.of_another_length ∷ []) [])).outside.text
        ≡ things.serving_text ++ codes "bytes 00000000\n" }
    ensures length_sent { (run_of 2 things.two things.serving_script
        (things.outside (things.of_another_length ∷ []) [])).outside.sent
        ≡ things.with_one (codes "1100ffff00010001000000646100000000000000") ∷ [] }
    ensures number { (run_of 2 things.two things.serving_script
        (things.outside (things.ahead ∷ []) [])).outside.text
        ≡ things.serving_text ++ codes "bytes 00000000\n" }
    ensures number_sent { (run_of 2 things.two things.serving_script
        (things.outside (things.ahead ∷ []) [])).outside.sent
        ≡ things.with_one (codes "1100ffff00010001000000646000000000000000") ∷ [] }
{}

/// A context is stopped to a file, released, and restored from it; then the file is gone.
pub fn a_context_goes_through_a_file()
    ensures text { (run_of 2 things.two things.moving_script
        (things.outside (things.write ∷ []) (7 ∷ []))).outside.text ≡ things.moving_text }
    ensures sent { (run_of 2 things.two things.moving_script
        (things.outside (things.write ∷ []) (7 ∷ []))).outside.sent ≡ things.moving_sent }
    ensures gone { (run_of 2 things.two things.moving_script
        (things.outside (things.write ∷ []) (7 ∷ []))).outside.held (codes "f") ≡ None }
    ensures ending { (run_of 2 things.two things.moving_script
        (things.outside (things.write ∷ []) (7 ∷ []))).ending ≡ Missing (codes "f") }
{}

/// An end that hears nothing expires after 100 ticks, and sends again; the last line is bad.
pub fn a_silent_end_expires()
    ensures text { (run_of 2 things.two things.waiting_script
        (things.outside [] (1000 ∷ 1099 ∷ 1100 ∷ 1101 ∷ []))).outside.text ≡ things.waiting_text }
    ensures sent { (run_of 2 things.two things.waiting_script
        (things.outside [] (1000 ∷ 1099 ∷ 1100 ∷ 1101 ∷ []))).outside.sent ≡ things.waiting_sent }
    ensures ticks { (run_of 2 things.two things.waiting_script
        (things.outside [] (1000 ∷ 1099 ∷ 1100 ∷ 1101 ∷ []))).outside.to_come ≡ [] }
    ensures ending { (run_of 2 things.two things.waiting_script
        (things.outside [] (1000 ∷ 1099 ∷ 1100 ∷ 1101 ∷ []))).ending
        ≡ BadLine 13 (record { column = 1; why = Word }) }
{}

/// An end counts from its last active turn, also one of an earlier `serve`; it expires at 100 ticks and not at 99.
pub fn an_active_moment_is_remembered()
    ensures { (run_of 2 things.two things.remembering_script
        (things.outside [] (1000 ∷ 1099 ∷ 1100 ∷ 1150 ∷ []))).outside.text
        ≡ things.remembering_text }
{}

/// An end that was never active in a turn counts from the first turn of this `serve`; what is silent makes none active.
pub fn a_silent_datagram_makes_none_active()
    ensures { (run_of 2 things.two things.silent_script
        (things.outside things.silent_waiting (500 ∷ 600 ∷ []))).outside.text
        ≡ things.silent_answers }
{}

/// The expiry of an end that waits for its RNR timer is not counted, and ends the wait.
pub fn an_rnr_timer_is_over()
    ensures { (run_of 2 things.two things.timer_script
        (things.outside things.timer_waiting (1000 ∷ 1100 ∷ 1101 ∷ []))).outside.text
        ≡ things.timer_text }
{}

/// A device alone does not stop a context whose partner is known to be moving.
pub fn a_stop_beside_a_moving_partner()
    ensures text { (run_of 2 things.two things.paused_script
        (things.outside things.paused_waiting [])).outside.text ≡ things.paused_text }
    ensures ending { (run_of 2 things.two things.paused_script
        (things.outside things.paused_waiting [])).ending ≡ Missing (codes "f") }
{}

/// Bytes that are no dump end the run, and stay in the depot.
pub fn what_is_no_dump_stays()
    ensures { run_of 2 things.two (codes "restore f\n")
        (things.holding (codes "f") things.short_dump)
        ≡ record {
          ending = BadDump 19 Short;
          outside = things.holding
              (codes "f") things.short_dump;
        } }
{}
