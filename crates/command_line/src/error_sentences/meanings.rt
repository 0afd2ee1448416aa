//! What the last line of a run means.

ghost use Rattle.std.specs.Prelude.{◌≡◌};
ghost use Rattle.command_line.specs.Meanings as spec;

/// Whether a line begins with a text.
#[tactic(auto, unfolding(crate::specs::Meanings::begins))]
fn begins(line: &[u8], text: &[u8]) -> bool
    ensures { result ≡ spec.begins line.now text.now }
{
    line.starts_with(text)
}

/// Whether a line ends with a text.
#[tactic(auto, unfolding(crate::specs::Meanings::ends))]
fn ends(line: &[u8], text: &[u8]) -> bool
    ensures { result ≡ spec.ends line.now text.now }
{
    line.ends_with(text)
}

/// What the line of a bad line means.
#[tactic(auto, unfolding(crate::specs::Meanings::line_meaning))]
fn line_meaning(line: &[u8]) -> &'static [u8]
    ensures { result.now ≡ spec.line_meaning line.now }
{
    match line {
        _ if ends(line, b" long") => b"the line has over 8400 bytes",
        _ if ends(line, b" ascii") => {
            b"this byte is none that a line may have; those are 32 to 126"
        }
        _ if ends(line, b" word") => b"this word is none that may stand here",
        _ if ends(line, b" missing") => b"a word is missing here",
        _ if ends(line, b" name") => {
            b"here must stand a name (a letter a to z, then up to 15 of a to z, 0 to 9 and _), or two of them with a dot between"
        }
        _ if ends(line, b" number") => {
            b"here must stand a number in its range, in decimal digits without a sign or a leading zero"
        }
        _ if ends(line, b" hex") => {
            b"here must stand hexadecimal digits, as many as this place takes"
        }
        _ if ends(line, b" rights") => {
            b"here must stand -, or some of the letters l, w, r and a in this order"
        }
        _ if ends(line, b" address") => {
            b"here must stand an IPv4 address, with or without a colon and a port from 1 to 65535"
        }
        _ if ends(line, b" option") => {
            b"here must stand another word, as the form of the line has it"
        }
        _ => b"here is more than the form takes",
    }
}

/// What the line of a bad dump means.
#[tactic(auto, unfolding(crate::specs::Meanings::dump_meaning))]
fn dump_meaning(line: &[u8]) -> &'static [u8]
    ensures { result.now ≡ spec.dump_meaning line.now }
{
    match line {
        _ if ends(line, b" short") => b"the dump ends here, inside or before a field",
        _ if ends(line, b" magic") => b"the first eight bytes are not those of a dump",
        _ if ends(line, b" version") => b"the version is not 1 or 2",
        _ if ends(line, b" name") => {
            b"the text at this byte, counted from 0, is no name, or is twice in its list"
        }
        _ if ends(line, b" count") => {
            b"the count at this byte, counted from 0, is over its limit"
        }
        _ if ends(line, b" field") => {
            b"the value at this byte, counted from 0, is out of its range, or breaks a rule of dumps"
        }
        _ => b"the dump ended before this byte, counted from 0",
    }
}

/// What the line of a trace that is no run of the machine means.
#[tactic(auto, unfolding(crate::specs::Meanings::trace_meaning))]
fn trace_meaning(line: &[u8]) -> &'static [u8]
    ensures { result.now ≡ spec.trace_meaning line.now }
{
    if ends(line, b" step") {
        b"the packetless machine cannot take the step of this line here"
    } else {
        b"the packetless machine answers otherwise"
    }
}

/// What the line of a context that stays means.
#[tactic(auto, unfolding(crate::specs::Meanings::stay_meaning))]
fn stay_meaning(line: &[u8]) -> &'static [u8]
    ensures { result.now ≡ spec.stay_meaning line.now }
{
    match line {
        _ if ends(line, b" peermoving") => {
            b"a partner of this context is carried, or its RESUME is not acknowledged yet"
        }
        _ if ends(line, b" toomany") =>
            b"a queue pair of this context moved 65535 times, or the device has 256 husks",
        _ => b"every target refused this context",
    }
}

/// What the last line of a run means: of one that stopped at a bad line or a bad dump, at a file that is not there, at a trace
/// that is no run, or at a device that is not emptied.
#[tactic(auto, unfolding(crate::specs::Meanings::meaning))]
pub(crate) fn meaning(line: &[u8]) -> &'static [u8]
    ensures { result.now ≡ spec.meaning line.now }
{
    match line {
        _ if begins(line, b"bad line ") => line_meaning(line),
        _ if begins(line, b"bad dump ") => dump_meaning(line),
        _ if begins(line, b"missing ") => b"the folder depot has no file of this name",
        _ if begins(line, b"illegal ") => trace_meaning(line),
        _ if begins(line, b"stays ") => stay_meaning(line),
        _ => b"the script made no such device, or not this target",
    }
}
