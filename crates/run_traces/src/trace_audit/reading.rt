//! What a line of a trace says that is no line of an answer.

ghost use Rattle.std.specs.Prelude.{◌≡◌};
ghost use Rattle.script_lang.specs.Lines.{Says, said, whole};
ghost use Rattle.script_lang.specs.Words.{Gives, GivesOr};
ghost use Rattle.run_traces.specs.Lines as lines;
ghost use Rattle.run_traces.specs.Lines.{traced_reading};

use crate::trace_audit::forms;
use crate::trace_audit::lines::{LineStart, TraceLine, VerbLineForm};
use crate::trace_audit::steps::inner_step;
use rdma_types::Verb;
use script_lang::{LineFault, LineWhy, Offence, Words, check_bytes, read_verb};
use std::alloc::Global;

/// `context` N `made`, or `context` N `none`
#[tactic(auto, unfolding(crate::specs::Lines::context_verb))]
fn context(words: &mut Words<'_>) -> Result<Verb, Offence>
    ensures { Gives result words.new (lines.context_verb words.old) }
{
    let name = words.name()?;
    let word = words.word()?;
    let made = forms::made_of(word.text).ok_or(word.bad(LineWhy::BadOption))?;
    Ok(Verb::Context { name, made })
}

/// `connect` O O `mtu` m `psn` x y `retry` r `rnr` w `reads` n
#[tactic(auto, unfolding(crate::specs::Lines::connect_verb))]
fn connect(words: &mut Words<'_>) -> Result<Verb, Offence>
    ensures { Gives result words.new (lines.connect_verb words.old) }
{
    let one = words.object()?;
    let two = words.object()?;
    let terms = words.terms()?;
    Ok(Verb::Connect { one, two, terms })
}

/// What the words behind the verb's say.
fn spoken_verb(alloc: Global, form: VerbLineForm, words: &mut Words<'_>) -> Result<Verb, LineFault>
    ensures { GivesOr result words.new (lines.spoken_verb form words.old) }
{
    let verb = match form {
        VerbLineForm::Shared(form) => return read_verb(alloc, form, words),
        VerbLineForm::Context => context(words)?,
        VerbLineForm::Connect => connect(words)?,
    };
    Ok(verb)
}

/// A verb, by the words behind `v`.
#[tactic(auto, unfolding(crate::specs::Lines::verb_words))]
fn verb_words(alloc: Global, words: &mut Words<'_>) -> Result<TraceLine, LineFault>
    ensures { GivesOr result words.new (lines.verb_words words.old) }
{
    let word = words.word()?;
    let form = forms::spoken_form(word.text).ok_or(word.bad(LineWhy::Word))?;
    Ok(TraceLine::Verb(spoken_verb(alloc, form, words)?))
}

/// An inner step, by the words behind `i`.
#[tactic(auto, unfolding(crate::specs::Lines::step_line))]
fn step_line(words: &mut Words<'_>) -> Result<TraceLine, Offence>
    ensures { Gives result words.new (lines.step_line words.old) }
{
    let word = words.word()?;
    let form = forms::step_form(word.text).ok_or(word.bad(LineWhy::Word))?;
    Ok(TraceLine::Step(inner_step(form, words)?))
}

/// What the words behind the first say.
fn led(alloc: Global, leader: LineStart, words: &mut Words<'_>) -> Result<TraceLine, LineFault>
    ensures { GivesOr result words.new (lines.led leader words.old) }
{
    let line = match leader {
        LineStart::Verb => return verb_words(alloc, words),
        LineStart::Step => step_line(words)?,
        LineStart::End => TraceLine::End,
    };
    Ok(line)
}

/// What the words of a line say.
#[tactic(auto, unfolding(crate::specs::Lines::trace_line))]
fn trace_line(alloc: Global, words: &mut Words<'_>) -> Result<TraceLine, LineFault>
    ensures { GivesOr result words.new (lines.trace_line words.old) }
{
    let word = words.word()?;
    let leader = forms::leader_of(word.text).ok_or(word.bad(LineWhy::Word))?;
    led(alloc, leader, words)
}

/// What the words of a line say, where none is left.
fn whole_line(alloc: Global, words: &mut Words<'_>) -> Result<TraceLine, LineFault>
    ensures { Says result (said (whole lines.trace_line words.old)) }
{
    let line = trace_line(alloc, words)?;
    words.end()?;
    Ok(line)
}

/// What a line of a trace says that is no line of an answer. The line comes without its newline.
///
/// # Errors
///
/// The first word that is wrong and why, of these in order (this project's choice): `Long`, over 8,400 bytes; `Ascii`, a
/// byte outside 32 to 126; then word by word `Missing`, `Word` where it names no line, verb or step, `Name`, `Number`,
/// `Hex`, `Rights` or `BadOption`; last `Extra`. Or `OutOfMemory`.
#[tactic(auto, unfolding(crate::specs::Lines::traced_reading))]
pub fn read_trace_line(alloc: Global, line: &[u8]) -> Result<TraceLine, LineFault>
    ensures { Says result (traced_reading line.now) }
{
    check_bytes(line)?;
    whole_line(alloc, &mut Words::new(line))
}
