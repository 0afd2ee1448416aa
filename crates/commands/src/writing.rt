//! Texts are written whole, or a prefix of them.

ghost use Rattle.std.specs.Prelude.{◌≡◌, ◌≤◌, map, OnOk, OnErr};
ghost use Rattle.host_ports.specs.Streams.{FaultsCounted, Puts};
ghost use Rattle.script_lang.specs.Printed.{line};
ghost use Rattle.script_runner.specs.Playing.{PutsPrefix};

use host_ports::{Sink, WriteFault, write_all_of};

/// Writes a text; after an error a prefix of it is written.
pub(crate) fn write_text<K: Sink>(text: &[u8], output: &mut K) -> Result<(), WriteFault>
    ensures whole { OnOk result (Puts (K.held output.old) (K.held output.new) text.now) }
    ensures part { OnErr result (PutsPrefix (K.held output.old) (K.held output.new) text.now) }
    ensures faults_unchanged { OnOk result (K.faults output.new ≡ K.faults output.old) }
    ensures faults_counted { OnErr result (FaultsCounted (K.faults output.old)
        (K.faults output.new)) }
    ensures faults_monotone { K.faults output.old ≤ K.faults output.new }
{
    write_all_of(output, text)
}

/// Writes a line: its first word, each other word after a space, and a newline.
pub(crate) fn write_line<K: Sink>(
    first: &[u8],
    words: &[&[u8]],
    output: &mut K,
) -> Result<(), WriteFault>
    ensures whole { OnOk result (Puts (K.held output.old) (K.held output.new)
        (line first.now (map (λ w. w.now) words.now))) }
    ensures part { OnErr result (PutsPrefix (K.held output.old) (K.held output.new)
        (line first.now (map (λ w. w.now) words.now))) }
    ensures faults_unchanged { OnOk result (K.faults output.new ≡ K.faults output.old) }
    ensures faults_counted { OnErr result (FaultsCounted (K.faults output.old)
        (K.faults output.new)) }
    ensures faults_monotone { K.faults output.old ≤ K.faults output.new }
{
    write_text(first, output)?;
    for word in words {
        write_text(b" ", output)?;
        write_text(word, output)?;
    }
    write_text(b"\n", output)
}
