//! What the definitions of datagrams say together.

ghost use Rattle.std.specs.Prelude.{◌≡◌, ◌↔◌, ◌<◌, ℕ, List, Some, None, All};
ghost use Rattle.protocol.specs.Wire.{Packet, Spells, Fits, packet_of, offence_of, wire_of};

/// Bytes are read as a packet exactly where they spell it.
pub fn what_is_read_is_what_is_spelled()
    ensures { (d : Packet) (bs : List ℕ) → (packet_of bs ≡ Some d) ↔ Spells d bs }
{}

/// Bytes have no offence exactly where they spell some packet.
pub fn nothing_is_spelled_where_something_offends()
    ensures { (bs : List ℕ) → (offence_of bs ≡ None) ↔ ((d : Packet) × Spells d bs) }
{}

/// What is written spells what it was written from.
pub fn what_is_written_is_spelled()
    ensures { (d : Packet) → Fits d → Spells d (wire_of d) }
{}

/// What is written is read as what it was written from.
pub fn what_is_written_reads_back()
    ensures { (d : Packet) → Fits d → packet_of (wire_of d) ≡ Some d }
{}

/// What is read of bytes can be written.
pub fn what_is_read_can_be_written()
    ensures { (d : Packet) (bs : List ℕ) → All (λ b. b < 256) bs → packet_of bs ≡ Some d → Fits d }
{}
