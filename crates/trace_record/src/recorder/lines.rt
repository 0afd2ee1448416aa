//! What a line of a script that is recorded says.
#![tactic(auto)]

ghost use Rattle.std.specs.Prelude.{◌≡◌, Ok, IfOk};
ghost use Rattle.law_headline.specs.Does.{happening_of};
ghost use Rattle.trace_rules.specs.Recording.{recorded_reading};
ghost use Rattle.script_lang.specs.Lines.{Says, bytes_offence, reading_of};
ghost use Rattle.script_lang.specs.Ranges.{IsLawfulLine};
ghost use Rattle.script_lang.specs.Words.{words_from};
ghost use Rattle.trace_record.specs.Lines.{IsNoSettling, settle_offence};

use script_lang::{Line, LineFault, LineWhy, Offence, Words, check_bytes, parse_line};
use std::alloc::Global;

/// What is wrong with a line whose first word is `settle`.
fn settling(line: &[u8]) -> Option<Offence>
    ensures { result ≡ settle_offence (words_from 1 line.now) }
{
    let mut words = Words::new(line);
    let Some(word) = words.next_word() else {
        return None;
    };
    if word.text == b"settle".as_slice() {
        return Some(word.bad(LineWhy::Word));
    }
    None
}

/// What a line says. No line settles: `settle` is a word that no line begins with. Errors: those of `parse_line`.
pub(crate) fn read_line(alloc: Global, line: &[u8]) -> Result<Line, LineFault>
    ensures value { Says result (recorded_reading line.now) }
    ensures read { IfOk result (λ l. reading_of line.now ≡ Ok l) }
    ensures quiet { IfOk result (λ l. IsNoSettling (happening_of l)) }
{
    check_bytes(line)?;
    if let Some(offence) = settling(line) {
        return Err(LineFault::from(offence));
    }
    parse_line(alloc, line)
}
