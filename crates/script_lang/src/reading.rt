//! What a line of a script of a world says.

ghost use Rattle.std.specs.Prelude.{◌≡◌, ◌≢◌, ◌+◌, ℕ, not, Some, None, Ok, Err, OnOk, IfErr, IfOk, length};
ghost use Rattle.std.specs.List.{list_all, position_or_len};
ghost use Rattle.script_lang.specs.declared.forms.Form.TheVariants as form_is;
ghost use Rattle.script_lang.specs.declared.forms.VerbForm.{VerbForm};
ghost use Rattle.script_lang.specs.declared.forms.VerbForm.TheVariants as verb_is;
ghost use Rattle.script_lang.specs.declared.lines.Line.TheVariants as line_is;
ghost use Rattle.script_lang.specs.declared.lines.LineFault.TheVariants as fault;
ghost use Rattle.script_lang.specs.Lines as lines;
ghost use Rattle.script_lang.specs.Lines.{bytes_offence, is_printable, printable_before, reading_of, reading_of_words, begun, said, whole, Says, Begins};
ghost use Rattle.script_lang.specs.Ranges.{IsLawfulLine};
ghost use Rattle.script_lang.specs.Words.{Gives, GivesOr, filled, words_from};

use crate::forms::{self, Form, VerbForm};
use crate::lines::{Line, LineFault, LineWhy, Offence};
use crate::verbs;
use crate::words::{Word, Words};
use rdma_types::Verb;
use std::alloc::Global;

/// Bytes of a line at most (this project's choice).
const LONGEST_LINE: usize = 8400;

fn printable(b: u8) -> bool
    ensures { result ≡ is_printable b }
{
    (32..=126).contains(&b)
}

/// Whether each byte may stand in a line. The loop goes to the end, so that it can look at many bytes at once.
fn all_printable(line: &[u8]) -> bool
    ensures { result ≡ list_all is_printable line.now }
{
    let mut all = true;
    for b in line {
        all &= printable(*b);
    }
    all
}

/// How many bytes stand before the first that may not stand in a line.
fn length_printable(line: &[u8]) -> usize
    ensures { result ≡ printable_before line.now }
{
    for (i, b) in line.iter().enumerate() {
        if !printable(*b) {
            return i;
        }
    }
    line.len()
}

/// Whether the bytes may stand in a line, and are not too many. Errors: `Long` where they are over 8,400, and else
/// `Ascii` at the first byte outside 32 to 126.
#[tactic(auto, using(crate::proofs::Printable::all_may_stand, crate::proofs::Printable::one_may_not), unfolding(crate::specs::Lines::bytes_offence))]
#[inline(always)]
pub fn check_bytes(line: &[u8]) -> Result<(), Offence>
    ensures good { OnOk result (bytes_offence line.now ≡ None) }
    ensures bad { IfErr result (λ e. bytes_offence line.now ≡ Some e) }
{
    if line.len() > LONGEST_LINE {
        return Err(Offence {
            column: LONGEST_LINE + 1,
            why: LineWhy::Long,
        });
    }
    if all_printable(line) {
        return Ok(());
    }
    let place = length_printable(line);
    Err(Offence {
        column: place + 1,
        why: LineWhy::Ascii,
    })
}

/// `device` id address
#[tactic(auto, unfolding(crate::specs::Lines::device_line))]
fn device(words: &mut Words<'_>, told: &mut Line) -> Result<(), Offence>
    ensures value { Gives (filled result told.new) words.new (lines.device_line words.old) }
    ensures lawful { OnOk result (IsLawfulLine told.new) }
{
    let id = words.device()?;
    let address = words.address()?;
    *told = Line::Device { id, address };
    Ok(())
}

/// `connect` O O `mtu` m `psn` x y `retry` r `rnr` w `reads` n
#[tactic(auto, unfolding(crate::specs::Lines::connect_line))]
fn connect(words: &mut Words<'_>, told: &mut Line) -> Result<(), Offence>
    ensures value { Gives (filled result told.new) words.new (lines.connect_line words.old) }
    ensures lawful { OnOk result (IsLawfulLine told.new) }
{
    let one = words.object()?;
    let two = words.object()?;
    let terms = words.terms()?;
    *told = Line::Verb(Verb::Connect { one, two, terms });
    Ok(())
}

/// A line of moving: a name and a device.
#[tactic(auto, unfolding(crate::specs::Lines::line_of))]
fn context(words: &mut Words<'_>, told: &mut Line) -> Result<(), Offence>
    ensures value { Gives (filled result told.new) words.new
        (lines.line_of form_is.Context words.old) }
    ensures lawful { OnOk result (IsLawfulLine told.new) }
{
    let name = words.name()?;
    let device = words.device()?;
    *told = Line::Context { name, device };
    Ok(())
}

/// `restore` N id
#[tactic(auto, unfolding(crate::specs::Lines::line_of))]
fn restore(words: &mut Words<'_>, told: &mut Line) -> Result<(), Offence>
    ensures value { Gives (filled result told.new) words.new
        (lines.line_of form_is.Restore words.old) }
    ensures lawful { OnOk result (IsLawfulLine told.new) }
{
    let name = words.name()?;
    let device = words.device()?;
    *told = Line::Restore { name, device };
    Ok(())
}

/// `release` N id
#[tactic(auto, unfolding(crate::specs::Lines::line_of))]
fn release(words: &mut Words<'_>, told: &mut Line) -> Result<(), Offence>
    ensures value { Gives (filled result told.new) words.new
        (lines.line_of form_is.Release words.old) }
    ensures lawful { OnOk result (IsLawfulLine told.new) }
{
    let name = words.name()?;
    let device = words.device()?;
    *told = Line::Release { name, device };
    Ok(())
}

/// What the words behind the first say, of a line that is no verb.
#[tactic(auto, unfolding(crate::specs::Lines::line_of))]
#[inline(always)]
fn plain_line(form: Form, words: &mut Words<'_>, told: &mut Line) -> Result<(), Offence>
    requires { (verb : VerbForm) → form ≢ form_is.Verb verb }
    ensures value { Gives (filled result told.new) words.new (lines.line_of form words.old) }
    ensures lawful { OnOk result (IsLawfulLine told.new) }
{
    match form {
        Form::Verb(_) => unreachable!(),
        Form::Device => return device(words, told),
        Form::Context => return context(words, told),
        Form::Connect => return connect(words, told),
        Form::Go => *told = Line::Go(words.object()?),
        Form::Deliver => *told = Line::Deliver(words.long()?),
        Form::Lose => *told = Line::Lose(words.long()?),
        Form::Wire => *told = Line::Wire(words.long()?),
        Form::Expire => *told = Line::Expire(words.object()?),
        Form::Rnr => *told = Line::Rnr(words.object()?),
        Form::Stop => *told = Line::Stop(words.name()?),
        Form::Restore => return restore(words, told),
        Form::Release => return release(words, told),
        Form::Dump => *told = Line::Dump(words.name()?),
        Form::Settle => *told = Line::Settle,
    }
    Ok(())
}

/// What the words behind the first say, of a verb.
#[tactic(auto, unfolding(crate::specs::Lines::line_of))]
#[inline(always)]
fn verb_line(
    alloc: Global,
    verb: VerbForm,
    words: &mut Words<'_>,
    told: &mut Line,
) -> Result<(), LineFault>
    ensures value { GivesOr (filled result told.new) words.new
        (lines.line_of (form_is.Verb verb) words.old) }
    ensures lawful { OnOk result (IsLawfulLine told.new) }
    ensures memory { result ≡ Err fault.OutOfMemory → verb ≡ verb_is.Store }
{
    *told = Line::Verb(verbs::read_verb(alloc, verb, words)?);
    Ok(())
}

/// What the words behind the first say.
#[inline(always)]
fn line_of(
    alloc: Global,
    form: Form,
    words: &mut Words<'_>,
    told: &mut Line,
) -> Result<(), LineFault>
    ensures value { GivesOr (filled result told.new) words.new (lines.line_of form words.old) }
    ensures lawful { OnOk result (IsLawfulLine told.new) }
    ensures memory { result ≡ Err fault.OutOfMemory → form ≡ form_is.Verb verb_is.Store }
{
    if let Form::Verb(verb) = form {
        return verb_line(alloc, verb, words, told);
    }
    plain_line(form, words, told)?;
    Ok(())
}

/// What the words behind the first say, where none is left.
#[inline(always)]
fn whole_line(
    alloc: Global,
    form: Form,
    words: &mut Words<'_>,
    told: &mut Line,
) -> Result<(), LineFault>
    ensures value { Says (filled result told.new) (said (whole (lines.line_of form) words.old)) }
    ensures lawful { OnOk result (IsLawfulLine told.new) }
    ensures memory { result ≡ Err fault.OutOfMemory → form ≡ form_is.Verb verb_is.Store }
{
    line_of(alloc, form, words, told)?;
    words.end()?;
    Ok(())
}

/// What a line says that begins with this word.
#[inline(always)]
fn read_from(
    alloc: Global,
    first: Word<'_>,
    words: &mut Words<'_>,
    told: &mut Line,
) -> Result<(), LineFault>
    ensures value { Says (filled result told.new) (begun line_is.Blank lines.form_of lines.line_of
        (record { column = first.entry.column; text = first.entry.text.now }) words.old) }
    ensures lawful { OnOk result (IsLawfulLine told.new) }
    ensures memory { result ≡ Err fault.OutOfMemory
        → lines.form_of first.entry.text.now ≡ Some (form_is.Verb verb_is.Store) }
{
    if let [b'#', ..] = first.text {
        *told = Line::Blank;
        return Ok(());
    }
    let Some(form) = forms::form_of(first.text) else {
        return Err(first.bad(LineWhy::Word).into())
    };
    whole_line(alloc, form, words, told)
}

/// What a line with lawful bytes says.
#[inline(always)]
fn read_words(alloc: Global, line: &[u8], told: &mut Line) -> Result<(), LineFault>
    ensures value { Says (filled result told.new)
        (reading_of_words line_is.Blank lines.form_of lines.line_of
        (words_from 1 line.now) (length line.now + 1)) }
    ensures lawful { OnOk result (IsLawfulLine told.new) }
    ensures memory { result ≡ Err fault.OutOfMemory
        → Begins lines.form_of (form_is.Verb verb_is.Store) (words_from 1 line.now) }
{
    let mut words = Words::new(line);
    let Some(first) = words.next_word() else {
        *told = Line::Blank;
        return Ok(());
    };
    read_from(alloc, first, &mut words, told)
}

/// Reads what a line of a script of a world says into a place that is kept from line to line. The line comes without its
/// newline, and without the carriage return before that. After an error nothing is said of what the place holds.
///
/// # Errors
///
/// The first word that is wrong and why, of these in order (this project's choice): `Long`, over 8,400 bytes; `Ascii`, a
/// byte outside 32 to 126; `Word`, no line begins so; then word by word `Missing`, `Name`, `Number`, `Hex`, `Rights`,
/// `Address` or `BadOption`; last `Extra`. `OutOfMemory`, which only a `store` can meet.
#[tactic(auto, unfolding(crate::specs::Lines::reading_of))]
#[inline(always)]
pub fn read_line(alloc: Global, line: &[u8], told: &mut Line) -> Result<(), LineFault>
    ensures value { Says (filled result told.new) (reading_of line.now) }
    ensures lawful { OnOk result (IsLawfulLine told.new) }
    ensures memory { result ≡ Err fault.OutOfMemory
        → Begins lines.form_of (form_is.Verb verb_is.Store) (words_from 1 line.now) }
{
    check_bytes(line)?;
    read_words(alloc, line, told)
}

/// What a line of a script of a world says.
///
/// # Errors
///
/// Those of `read_line`.
#[inline(always)]
pub fn parse_line(alloc: Global, line: &[u8]) -> Result<Line, LineFault>
    ensures value { Says result (reading_of line.now) }
    ensures lawful { IfOk result IsLawfulLine }
    ensures memory { result ≡ Err fault.OutOfMemory
        → Begins lines.form_of (form_is.Verb verb_is.Store) (words_from 1 line.now) }
{
    let mut told = Line::Blank;
    read_line(alloc, line, &mut told)?;
    Ok(told)
}
