//! Offsets of bytes that a datagram may change.

ghost use Rattle.std.specs.Prelude.{◌≡◌, ◌∷◌, ◌++◌, []};
ghost use Rattle.example_scripts.specs.ArrivalDatagrams as datagrams;
ghost use Rattle.example_scripts.specs.Opened as opened;
ghost use Rattle.example_scripts.specs.SaidArrivals.{touched};

/// A WRITE may change the bytes that its remote key and its length speak of. It may change none where it is cut off, under
/// the local key, where the region does not hold its length, or where it is for another queue pair.
pub fn a_write_touches_its_bytes()
    ensures whole { touched opened.new (opened.opened 64) datagrams.write opened.b 33554434 64
        ≡ 0 ∷ 1 ∷ 2 ∷ 3 ∷ [] }
    ensures longer { touched opened.new (opened.opened 64) datagrams.of_another_length opened.b
        33554434 64 ≡ 0 ∷ 1 ∷ 2 ∷ 3 ∷ 4 ∷ [] }
    ensures ahead { touched opened.new (opened.opened 64) datagrams.ahead opened.b 33554434 64
        ≡ 0 ∷ 1 ∷ 2 ∷ 3 ∷ [] }
    ensures cut { touched opened.new (opened.opened 64) datagrams.cut opened.b 33554434 64 ≡ [] }
    ensures key { touched opened.new (opened.opened 64) datagrams.under_the_local_key opened.b
        33554434 64 ≡ [] }
    ensures past { touched opened.new (opened.opened 64) datagrams.past_the_region opened.b 33554434
        64 ≡ [] }
    ensures another { touched opened.new (opened.opened 64) datagrams.to_another opened.b 33554434
        64 ≡ [] }
{}

/// A SEND may change the oldest receive and not the next, a FetchAdd its word besides, and a response the local place of
/// the Read alone.
pub fn receives_and_reads_are_touched()
    ensures send { touched opened.new opened.posted datagrams.send opened.b 33554434 64
        ≡ 16 ∷ 17 ∷ 18 ∷ 19 ∷ 20 ∷ 21 ∷ 22 ∷ 23 ∷ [] }
    ensures atomic { touched opened.new opened.posted datagrams.fetch_add opened.b 33554434 64
        ≡ 8 ∷ 9 ∷ 10 ∷ 11 ∷ 12 ∷ 13 ∷ 14 ∷ 15 ∷ 16 ∷ 17 ∷ 18 ∷ 19 ∷ 20 ∷ 21 ∷ 22 ∷ 23 ∷ [] }
    ensures acknowledge { touched opened.new opened.posted datagrams.acknowledge opened.b 33554434
        64 ≡ 48 ∷ 49 ∷ 50 ∷ 51 ∷ [] }
    ensures response { touched opened.new opened.posted datagrams.read_response opened.b 33554434 64
        ≡ 48 ∷ 49 ∷ 50 ∷ 51 ∷ [] }
    ensures cut { touched opened.new opened.posted datagrams.cut opened.b 33554434 64 ≡ [] }
{}

/// The last packet of a WRITE of 300 bytes names no key, and may change its range, from offset 100 on.
pub fn a_message_in_progress_is_touched()
    ensures write { touched opened.new (opened.begun datagrams.write_first) datagrams.write_last
        opened.b 33554434 104 ≡ 100 ∷ 101 ∷ 102 ∷ 103 ∷ [] }
    ensures none { touched opened.new (opened.opened 1024) datagrams.write_last opened.b 33554434
        104 ≡ [] }
{}
