//! What is written reads back, and what is read is a dump.

ghost use Rattle.std.specs.Prelude.{◌≡◌, ℕ, List, [], ◌++◌, false};
ghost use Rattle.protocol.specs.declared.images.ContextImage.{ContextImage};
ghost use Rattle.protocol.specs.declared.dumps.DumpWhy.{DumpWhy};
ghost use Rattle.protocol.specs.Dumps.{Dumps, Good, Bad, read_dump};
ghost use Rattle.law_dump_round_trip.specs.Fits.{FitsFields};
ghost use Rattle.law_dump_round_trip.specs.Later.{is_short};

/// An image that is read from bytes keeps the rules, and the bytes are those of a dump of it.
pub fn what_is_read_is_a_dump(bytes: &[u8])
    ensures { (c : ContextImage) (place : ℕ) (rest : List ℕ)
        → read_dump bytes.now ≡ Good c place rest → Dumps c bytes.now }
{
    let _bytes = bytes;
}

/// A dump of an image whose numbers fit their fields reads back as that image.
pub fn what_is_written_reads_back()
    ensures { (c : ContextImage) (bytes : List ℕ) → Dumps c bytes → FitsFields c
        → (place : ℕ) × (read_dump bytes ≡ Good c place []) }
{}

/// A fault of bytes is the same whatever bytes follow them, unless it is that they are too few.
#[tactic(auto, using(crate::proofs::Steady::faults_stay))]
pub fn a_fault_stays()
    ensures { (bytes more : List ℕ) (place : ℕ) (why : DumpWhy) → read_dump bytes ≡ Bad place why
        → is_short why ≡ false → read_dump (bytes ++ more) ≡ Bad place why }
{}
