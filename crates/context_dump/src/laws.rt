//! An image goes through its bytes as it is.

ghost use Rattle.std.specs.Prelude.{◌≡◌, ℕ, List};
ghost use Rattle.protocol.specs.declared.images.ContextImage.{ContextImage};
ghost use Rattle.protocol.specs.Dumps.{Dumps, Good, read_dump};
ghost use Rattle.law_dump_round_trip.specs.Fits.{FitsFields};

/// What is read of a dump of an image whose numbers fit their fields is that image, and no other.
pub fn an_image_through_its_bytes_is_the_same()
    ensures { (c read : ContextImage) (bytes rest : List ℕ) (place : ℕ) → Dumps c bytes
        → FitsFields c → read_dump bytes ≡ Good read place rest → read ≡ c }
{}
