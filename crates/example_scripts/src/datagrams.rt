//! Datagrams of worked examples, one of each kind, a forged one, and with each bit turned, evaluated by the prover.
//!
//! The functions do nothing. Each promises the equations that it names, over the definitions that `roce_headers` reads and
//! writes by. They stand here, so that its proof is not made twice.

ghost use Rattle.std.specs.Prelude.{◌≡◌, Some, map};
ghost use Rattle.protocol.specs.Wire.{offence_of, packet_of};
ghost use Rattle.protocol.specs.declared.wire.MalformedWhy.TheVariants.{Short};
ghost use Rattle.example_scripts.specs.SaidDatagrams.{AreWrittenAsRead, ignored_bits};
ghost use Rattle.example_scripts.specs.Datagrams.{worked, other_kinds};
ghost use Rattle.example_scripts.specs.Bits.{ignored};
ghost use Rattle.example_scripts.specs.Forged as forged;

/// The datagrams of worked examples are written as they were read.
pub fn worked_examples_are_written_as_they_were_read()
    ensures { AreWrittenAsRead worked }
{}

/// One datagram of each kind that no worked example shows is written as it was read.
pub fn each_other_kind_is_written_as_it_was_read()
    ensures { AreWrittenAsRead other_kinds }
{}

/// A WRITE with one field at a time forged is read as it is spelled, and a prefix of it is short.
pub fn a_forged_write_is_read_as_it_is_spelled()
    ensures front { offence_of forged.front ≡ Some (record { place = 15; why = Short }) }
    ensures said { map packet_of forged.forged ≡ forged.said }
    ensures written { AreWrittenAsRead forged.forged }
{}

/// These bits are ignored, and no others.
pub fn these_bits_are_ignored_and_no_others()
    ensures { map (λ c. ignored_bits c.0) ignored ≡ map (λ c. c.1) ignored }
{}
