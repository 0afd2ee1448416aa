//! Laws of the words of lines.

ghost use Rattle.std.specs.Prelude.{◌≡◌, ℕ, true, ◌∷◌, ◌++◌, ◌<◌, ◌≤◌, ◌^◌, List, length, Some};
ghost use Rattle.std.specs.Fmt.{decimal};
ghost use Rattle.byteorder.specs.Endian.{big_bytes};
ghost use Rattle.hex.specs.Hex.{IsBytes, encode_lower};
ghost use Rattle.rdma_types.specs.Spelled.{is_name};
ghost use Rattle.script_lang.specs.Texts.{number_in, hex_number, bytes_of, object_of};

/// Numbers, keys, queue pair numbers, bytes and names of objects, as answers print them, are read back in lines.
pub fn what_is_printed_reads_back()
    ensures number { (low : ℕ) → (high : ℕ) → (n : ℕ) → low ≤ n → n ≤ high → n < 2 ^ 64
        → number_in low high (decimal n) ≡ Some n }
    ensures key { (n : ℕ) → n < 2 ^ 32 → hex_number 4 (encode_lower (big_bytes 4 n)) ≡ Some n }
    ensures queue_pair { (n : ℕ) → n < 2 ^ 24 → hex_number 3 (encode_lower (big_bytes 3 n))
        ≡ Some n }
    ensures bytes { (bs : List ℕ) → IsBytes bs → 1 ≤ length bs → length bs ≤ 4096
        → bytes_of (encode_lower bs) ≡ Some bs }
    ensures object { (context : List ℕ) → (name : List ℕ) → is_name context ≡ true
        → is_name name ≡ true → object_of (context ++ 46 ∷ name)
        ≡ Some (record { context = context; name = name }) }
{}

/// What is read as a number of at most 64 bits is its decimal digits and nothing else: each number is spelled in one way.
pub fn a_number_is_spelled_in_one_way()
    ensures { (low : ℕ) → (high : ℕ) → (n : ℕ) → (text : List ℕ) → high < 2 ^ 64
        → number_in low high text ≡ Some n → text ≡ decimal n }
{}
