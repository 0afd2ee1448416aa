//! Worked examples, as equations that the prover evaluates on the definitions. The functions do nothing.

ghost use Rattle.std.specs.Prelude.{◌≡◌, ◌++◌, [], ◌∷◌, codes};
ghost use Rattle.command_line.specs.Sentences.{ended_as, sentence, usage_sentence};

/// Command lines with a wrong word.
pub fn wrong_words_are_named()
    ensures none { usage_sentence []
        ≡ codes "jichurpa: word 1, the command, is missing; see jichurpa --help\n" }
    ensures unknown { usage_sentence (codes "fly" ∷ codes "7" ∷ [])
        ≡ codes "jichurpa: word 1 is \"fly\", which is no command; see jichurpa --help\n" }
    ensures alone { usage_sentence (codes "--help" ∷ codes "play" ∷ [])
        ≡ codes "jichurpa: word 1 is \"--help\", which takes no word behind it; see "
        ++ codes "jichurpa --help\n" }
    ensures extra { usage_sentence (codes "play" ∷ codes "now" ∷ [])
        ≡ codes "jichurpa play: word 2 is \"now\", one word too many; see jichurpa play "
        ++ codes "--help\n" }
    ensures range { usage_sentence (codes "bulk" ∷ codes "7" ∷ codes "9" ∷ codes "1000" ∷ codes "5"
        ∷ [])
        ≡ codes "jichurpa bulk: word 3, CONNECTIONS, is \"9\"; it must be a number from "
        ++ codes "1 to 8, in decimal digits without a sign or a leading zero; see "
        ++ codes "jichurpa bulk --help\n" }
    ensures short { usage_sentence (codes "threads" ∷ codes "4" ∷ [])
        ≡ codes "jichurpa threads: word 3, ADDS, is missing; it must be a number from 1 "
        ++ codes "to 2000, in decimal digits without a sign or a leading zero; see "
        ++ codes "jichurpa threads --help\n" }
    ensures zero { usage_sentence (codes "fanout" ∷ codes "3" ∷ codes "0500" ∷ codes "16" ∷ [])
        ≡ codes "jichurpa fanout: word 3, ADDS, is \"0500\"; it must be a number from 1 "
        ++ codes "to 10000, in decimal digits without a sign or a leading zero; see "
        ++ codes "jichurpa fanout --help\n" }
    ensures seed { usage_sentence (codes "mail" ∷ codes "18446744073709551616" ∷ codes "4"
        ∷ codes "200" ∷ codes "3" ∷ [])
        ≡ codes "jichurpa mail: word 2, SEED, is \"18446744073709551616\"; it must be a "
        ++ codes "number from 0 to 18446744073709551615, in decimal digits without a sign "
        ++ codes "or a leading zero; see jichurpa mail --help\n" }
    ensures name { usage_sentence (codes "show-dump" ∷ codes "9 a" ∷ [])
        ≡ codes "jichurpa show-dump: word 2, NAME, is \"9?a\"; it must be a name: a "
        ++ codes "letter a to z, then up to 15 of a to z, 0 to 9 and _; see jichurpa "
        ++ codes "show-dump --help\n" }
    ensures address { usage_sentence (codes "node" ∷ codes "1" ∷ codes "10.0.0" ∷ [])
        ≡ codes "jichurpa node: word 3, ADDRESS, is \"10.0.0\"; it must be an IPv4 "
        ++ codes "address, with or without a colon and a port from 1 to 65535; see "
        ++ codes "jichurpa node --help\n" }
    ensures option { usage_sentence (codes "serve" ∷ codes "1" ∷ codes "10.0.0.1" ∷ codes "--kept"
        ∷ [])
        ≡ codes "jichurpa serve: word 4, OPTION, is \"--kept\"; it must be --depot, "
        ++ codes "--timeout or --keep; see jichurpa serve --help\n" }
    ensures behind { usage_sentence (codes "serve" ∷ codes "1" ∷ codes "10.0.0.1" ∷ codes "--keep"
        ∷ codes "--depot" ∷ codes "a b" ∷ codes "--timeout" ∷ [])
        ≡ codes "jichurpa serve: word 8, MS, is missing; it must be a number from 1 to "
        ++ codes "60000, in decimal digits without a sign or a leading zero; see jichurpa "
        ++ codes "serve --help\n" }
    ensures twice { usage_sentence (codes "evacuate" ∷ codes "2" ∷ codes "3" ∷ codes "2" ∷ [])
        ≡ codes "jichurpa evacuate: word 2 is \"2\", and so is a later word; the ids "
        ++ codes "must differ; see jichurpa evacuate --help\n" }
{}

/// Runs that were not done.
pub fn lines_are_explained()
    ensures words { sentence (codes "audit" ∷ codes "x" ∷ []) (ended_as 2 (codes "usage") [])
        ≡ codes "jichurpa audit: word 2 is \"x\", one word too many; see jichurpa audit "
        ++ codes "--help\n" }
    ensures line { sentence (codes "play" ∷ []) (ended_as 3 (codes "bad line 3 column 7 name") [])
        ≡ codes "jichurpa play: bad line 3 column 7 name: here must stand a name (a "
        ++ codes "letter a to z, then up to 15 of a to z, 0 to 9 and _), or two of them "
        ++ codes "with a dot between\n" }
    ensures dump { sentence (codes "show-dump" ∷ codes "b" ∷ [])
        (ended_as 3 (codes "bad dump 34 name") [])
        ≡ codes "jichurpa show-dump: bad dump 34 name: the text at this byte, counted "
        ++ codes "from 0, is no name, or is twice in its list\n" }
    ensures input { sentence (codes "play" ∷ [])
        (ended_as 4 [] (codes "Is a directory (os error 21)"))
        ≡ codes "jichurpa play: standard input could not be read: Is a directory (os "
        ++ codes "error 21)\n" }
    ensures port { sentence (codes "node" ∷ codes "1" ∷ codes "127.0.0.1" ∷ [])
        (ended_as 6 (codes "link fault")
        (codes "127.0.0.1:4791: Address already in use (os error 98)"))
        ≡ codes "jichurpa node: the link failed: 127.0.0.1:4791: Address already in use "
        ++ codes "(os error 98)\n" }
    ensures file { sentence (codes "show-dump" ∷ codes "b" ∷ []) (ended_as 7 (codes "depot fault")
        (codes "depot/b: it is no regular file"))
        ≡ codes "jichurpa show-dump: the depot failed: depot/b: it is no regular file\n" }
    ensures memory { sentence (codes "bulk" ∷ codes "1" ∷ codes "1" ∷ codes "1" ∷ codes "0" ∷ [])
        (ended_as 8 (codes "out of memory") []) ≡ codes "jichurpa bulk: memory ran out\n" }
    ensures missing { sentence (codes "show-dump" ∷ codes "g" ∷ [])
        (ended_as 12 (codes "missing g") [])
        ≡ codes "jichurpa show-dump: missing g: the folder depot has no file of this name\n" }
    ensures illegal { sentence (codes "audit" ∷ []) (ended_as 13 (codes "illegal 7 step") [])
        ≡ codes "jichurpa audit: illegal 7 step: the packetless machine cannot take the "
        ++ codes "step of this line here\n" }
    ensures stays { sentence (codes "evacuate" ∷ codes "2" ∷ codes "3" ∷ [])
        (ended_as 14 (codes "stays b notarget") [])
        ≡ codes "jichurpa evacuate: stays b notarget: every target refused this context\n" }
{}
