//! What a line of a script of a node says.

ghost use Rattle.std.specs.Prelude.{◌≡◌, ◌≢◌, IfOk, ◌+◌, Some, Err, length};
ghost use Rattle.script_lang.specs.declared.forms.NodeForm.TheVariants as form_is;
ghost use Rattle.script_lang.specs.declared.forms.VerbForm.{VerbForm};
ghost use Rattle.script_lang.specs.declared.forms.VerbForm.TheVariants as verb_is;
ghost use Rattle.script_lang.specs.declared.lines.LineFault.TheVariants as fault;
ghost use Rattle.script_lang.specs.declared.lines.NodeLine.TheVariants as line_is;
ghost use Rattle.script_lang.specs.Lines as lines;
ghost use Rattle.script_lang.specs.Lines.{node_reading_of, reading_of_words, begun, said, whole, Says, Begins};
ghost use Rattle.script_lang.specs.Ranges.{IsLawfulNodeLine};
ghost use Rattle.script_lang.specs.Words.{Gives, GivesOr, words_from};

use crate::forms::{self, NodeForm, VerbForm};
use crate::lines::{LineFault, LineWhy, NodeLine, Offence};
use crate::reading::check_bytes;
use crate::verbs;
use crate::words::{Word, Words};
use std::alloc::Global;

/// `link` O number address `mtu` m `psn` own peer `retry` r `rnr` w `reads` n
#[tactic(auto, unfolding(crate::specs::Lines::link_line))]
fn link(words: &mut Words<'_>) -> Result<NodeLine, Offence>
    ensures value { Gives result words.new (lines.link_line words.old) }
    ensures lawful { IfOk result IsLawfulNodeLine }
{
    let end = words.object()?;
    let peer = words.queue_pair()?;
    let partner = words.address()?;
    let terms = words.terms()?;
    Ok(NodeLine::Link {
        end,
        peer,
        partner,
        terms,
    })
}

/// `stop` N file
#[tactic(auto, unfolding(crate::specs::Lines::stop_line))]
fn stop(words: &mut Words<'_>) -> Result<NodeLine, Offence>
    ensures value { Gives result words.new (lines.stop_line words.old) }
    ensures lawful { IfOk result IsLawfulNodeLine }
{
    let name = words.name()?;
    let file = words.name()?;
    Ok(NodeLine::Stop { name, file })
}

/// `serve` turns
#[tactic(auto, unfolding(crate::specs::Lines::serve_line))]
fn serve(words: &mut Words<'_>) -> Result<NodeLine, Offence>
    ensures value { Gives result words.new (lines.serve_line words.old) }
    ensures lawful { IfOk result IsLawfulNodeLine }
{
    let turns = words.number(1, 100_000)? as u32;
    Ok(NodeLine::Serve(turns))
}

/// What the words behind the first say, of a line that is no verb.
#[tactic(auto, unfolding(crate::specs::Lines::node_line_of))]
fn plain_line(form: NodeForm, words: &mut Words<'_>) -> Result<NodeLine, Offence>
    requires { (verb : VerbForm) → form ≢ form_is.Verb verb }
    ensures value { Gives result words.new (lines.node_line_of form words.old) }
    ensures lawful { IfOk result IsLawfulNodeLine }
{
    match form {
        NodeForm::Verb(_) => unreachable!(),
        NodeForm::Context => Ok(NodeLine::Context(words.name()?)),
        NodeForm::Link => link(words),
        NodeForm::Go => Ok(NodeLine::Go(words.object()?)),
        NodeForm::Expire => Ok(NodeLine::Expire(words.object()?)),
        NodeForm::Rnr => Ok(NodeLine::Rnr(words.object()?)),
        NodeForm::Stop => stop(words),
        NodeForm::Restore => Ok(NodeLine::Restore {
            file: words.name()?,
        }),
        NodeForm::Release => Ok(NodeLine::Release(words.name()?)),
        NodeForm::Serve => serve(words),
    }
}

/// What the words behind the first say, of a verb.
#[tactic(auto, unfolding(crate::specs::Lines::node_line_of))]
fn verb_line(alloc: Global, verb: VerbForm, words: &mut Words<'_>) -> Result<NodeLine, LineFault>
    ensures value { GivesOr result words.new (lines.node_line_of (form_is.Verb verb) words.old) }
    ensures lawful { IfOk result IsLawfulNodeLine }
    ensures memory { result ≡ Err fault.OutOfMemory → verb ≡ verb_is.Store }
{
    match verbs::read_verb(alloc, verb, words) {
        Ok(verb) => Ok(NodeLine::Verb(verb)),
        Err(fault) => Err(fault),
    }
}

/// What the words behind the first say.
fn line_of(alloc: Global, form: NodeForm, words: &mut Words<'_>) -> Result<NodeLine, LineFault>
    ensures value { GivesOr result words.new (lines.node_line_of form words.old) }
    ensures lawful { IfOk result IsLawfulNodeLine }
    ensures memory { result ≡ Err fault.OutOfMemory → form ≡ form_is.Verb verb_is.Store }
{
    if let NodeForm::Verb(verb) = form {
        return verb_line(alloc, verb, words);
    }
    match plain_line(form, words) {
        Ok(line) => Ok(line),
        Err(offence) => Err(offence.into()),
    }
}

/// What the words behind the first say, where none is left.
fn whole_line(alloc: Global, form: NodeForm, words: &mut Words<'_>) -> Result<NodeLine, LineFault>
    ensures value { Says result (said (whole (lines.node_line_of form) words.old)) }
    ensures lawful { IfOk result IsLawfulNodeLine }
    ensures memory { result ≡ Err fault.OutOfMemory → form ≡ form_is.Verb verb_is.Store }
{
    let read = line_of(alloc, form, words);
    if read.is_err() {
        return read;
    }
    words.end()?;
    read
}

/// What a line says that begins with this word.
fn read_from(alloc: Global, first: Word<'_>, words: &mut Words<'_>) -> Result<NodeLine, LineFault>
    ensures value { Says result (begun line_is.Blank lines.node_form_of lines.node_line_of
        (record { column = first.entry.column; text = first.entry.text.now }) words.old) }
    ensures lawful { IfOk result IsLawfulNodeLine }
    ensures memory { result ≡ Err fault.OutOfMemory
        → lines.node_form_of first.entry.text.now ≡ Some (form_is.Verb verb_is.Store) }
{
    if let [b'#', ..] = first.text {
        return Ok(NodeLine::Blank);
    }
    let Some(form) = forms::node_form_of(first.text) else {
        return Err(first.bad(LineWhy::Word).into())
    };
    whole_line(alloc, form, words)
}

/// What a line with lawful bytes says.
fn read_words(alloc: Global, line: &[u8]) -> Result<NodeLine, LineFault>
    ensures value { Says result (reading_of_words line_is.Blank lines.node_form_of
        lines.node_line_of (words_from 1 line.now) (length line.now + 1)) }
    ensures lawful { IfOk result IsLawfulNodeLine }
    ensures memory { result ≡ Err fault.OutOfMemory
        → Begins lines.node_form_of (form_is.Verb verb_is.Store) (words_from 1 line.now) }
{
    let mut words = Words::new(line);
    let Some(first) = words.next_word() else {
        return Ok(NodeLine::Blank)
    };
    read_from(alloc, first, &mut words)
}

/// What a line of a script of a node says. The line comes without its newline, and without the carriage return before
/// that.
///
/// # Errors
///
/// As for a line of a script of a world: the first word that is wrong and why, or `OutOfMemory`, which only a `store`
/// can meet.
#[tactic(auto, unfolding(crate::specs::Lines::node_reading_of))]
pub fn parse_node_line(alloc: Global, line: &[u8]) -> Result<NodeLine, LineFault>
    ensures value { Says result (node_reading_of line.now) }
    ensures lawful { IfOk result IsLawfulNodeLine }
    ensures memory { result ≡ Err fault.OutOfMemory
        → Begins lines.node_form_of (form_is.Verb verb_is.Store) (words_from 1 line.now) }
{
    check_bytes(line)?;
    read_words(alloc, line)
}
