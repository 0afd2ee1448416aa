//! How a line is read.

ghost use Rattle.std.specs.Prelude.{◌≡◌, ◌≤◌, IfOk, bytes_eq};
ghost use Rattle.script_lang.specs.Lines.{Says, node_reading_of, said, whole};
ghost use Rattle.script_lang.specs.Words.{Gives};
ghost use Rattle.serve_rules.specs.Ranges.{IsLawfulServeLine};
ghost use Rattle.serve_rules.specs.Reading as rules;

use crate::{Goal, ServeLine};
use rdma_types::ObjName;
use script_lang::{LineFault, LineWhy, Offence, Word, Words, check_bytes, parse_node_line};
use std::alloc::Global;

/// Milliseconds of a wait at most.
const LONGEST_WAIT: u64 = 3_600_000;

/// Milliseconds of an `until` that says none.
const USUAL_LIMIT: u64 = 10_000;

/// The lines that are not those of a node, and `serve`, which is none here.
#[derive(Clone, Copy)]
pub enum OwnForm {
    Wait,
    Until,
    Show,
    Serve,
}

fn spells(word: &[u8], text: &[u8]) -> bool
    ensures { result ≡ bytes_eq word.now text.now }
{
    word == text
}

/// The line that a first word names.
fn own_form_of(word: &[u8]) -> Option<OwnForm>
    ensures { result ≡ rules.own_form word.now }
{
    match word {
        _ if spells(word, b"wait") => Some(OwnForm::Wait),
        _ if spells(word, b"until") => Some(OwnForm::Until),
        _ if spells(word, b"show") => Some(OwnForm::Show),
        _ if spells(word, b"serve") => Some(OwnForm::Serve),
        _ => None,
    }
}

/// `wait` MS
#[tactic(auto, unfolding(crate::specs::Reading::wait_line))]
fn wait(words: &mut Words<'_>) -> Result<ServeLine, Offence>
    ensures value { Gives result words.new (rules.wait_line words.old) }
    ensures lawful { IfOk result IsLawfulServeLine }
{
    Ok(ServeLine::Wait(words.number(0, LONGEST_WAIT)?))
}

/// What an end is waited for.
#[tactic(auto, unfolding(crate::specs::Reading::a_goal))]
fn goal(words: &mut Words<'_>) -> Result<Goal, Offence>
    ensures { Gives result words.new (rules.a_goal words.old) }
{
    let word = words.word()?;
    match word.text {
        text if spells(text, b"idle") => Ok(Goal::Idle),
        text if spells(text, b"running") => Ok(Goal::Running),
        _ => Err(word.bad(LineWhy::BadOption)),
    }
}

/// The time that a word says.
#[tactic(auto, unfolding(crate::specs::Reading::time_of))]
fn time(word: &Word<'_>) -> Result<u64, Offence>
    ensures value { result ≡ rules.time_of (record {
      column = word.now.column;
      text = word.now.text.now;
    }) }
    ensures within { IfOk result (λ n. n ≤ 3600000) }
{
    match Words::new(word.text).number(1, LONGEST_WAIT) {
        Ok(time) => Ok(time),
        Err(_) => Err(word.bad(LineWhy::Number)),
    }
}

/// A time, or the usual one at the end of the line.
#[tactic(auto, unfolding(crate::specs::Reading::a_limit))]
fn limit(words: &mut Words<'_>) -> Result<u64, Offence>
    ensures value { result ≡ rules.a_limit words.old }
    ensures within { IfOk result (λ n. n ≤ 3600000) }
{
    let Some(word) = words.next_word() else {
        return Ok(USUAL_LIMIT);
    };
    let time = time(&word)?;
    words.end()?;
    Ok(time)
}

/// The end that is waited for, and what for.
#[tactic(auto, unfolding(crate::specs::Reading::a_wish))]
fn wish(words: &mut Words<'_>) -> Result<(ObjName, Goal), Offence>
    ensures { Gives result words.new (rules.a_wish words.old) }
{
    let end = words.object()?;
    let goal = goal(words)?;
    Ok((end, goal))
}

/// `until` O goal, and a time
#[tactic(auto, unfolding(crate::specs::Reading::until_line))]
fn until(words: &mut Words<'_>) -> Result<ServeLine, Offence>
    ensures value { result ≡ rules.until_line words.old }
    ensures lawful { IfOk result IsLawfulServeLine }
{
    let (end, goal) = wish(words)?;
    let limit = limit(words)?;
    Ok(ServeLine::Until { end, goal, limit })
}

/// An object where the word is one, and else a context.
#[tactic(auto, unfolding(crate::specs::Reading::shown))]
fn shown(word: &Word<'_>) -> Result<ServeLine, Offence>
    ensures value { result ≡ rules.shown (record {
      column = word.now.column;
      text = word.now.text.now;
    }) }
    ensures lawful { IfOk result IsLawfulServeLine }
{
    if let Ok(end) = Words::new(word.text).object() {
        return Ok(ServeLine::ShowEnd(end));
    }
    match Words::new(word.text).name() {
        Ok(name) => Ok(ServeLine::ShowContext(name)),
        Err(_) => Err(word.bad(LineWhy::Name)),
    }
}

/// `show`, `show` O, `show` N
#[tactic(auto, unfolding(crate::specs::Reading::show_line))]
fn show(words: &mut Words<'_>) -> Result<ServeLine, Offence>
    ensures value { result ≡ rules.show_line words.old }
    ensures lawful { IfOk result IsLawfulServeLine }
{
    let Some(word) = words.next_word() else {
        return Ok(ServeLine::Show);
    };
    let line = shown(&word)?;
    words.end()?;
    Ok(line)
}

/// `wait` MS, to the end of the line
fn whole_wait(words: &mut Words<'_>) -> Result<ServeLine, Offence>
    ensures value { result ≡ said (whole rules.wait_line words.old) }
    ensures lawful { IfOk result IsLawfulServeLine }
{
    let line = wait(words)?;
    words.end()?;
    Ok(line)
}

/// What the words behind the first say, to the end of the line, of a line that is not one of a node.
#[tactic(auto, unfolding(crate::specs::Reading::own_line))]
fn own_line(form: OwnForm, first: &Word<'_>, words: &mut Words<'_>) -> Result<ServeLine, Offence>
    ensures value { result ≡ rules.own_line form (record {
      column = first.now.column;
      text = first.now.text.now;
    }) words.old }
    ensures lawful { IfOk result IsLawfulServeLine }
{
    match form {
        OwnForm::Wait => whole_wait(words),
        OwnForm::Until => until(words),
        OwnForm::Show => show(words),
        OwnForm::Serve => Err(first.bad(LineWhy::Word)),
    }
}

/// What a line of a node says.
fn node_line(alloc: Global, line: &[u8]) -> Result<ServeLine, LineFault>
    ensures value { Says result (rules.of_node (node_reading_of line.now)) }
    ensures lawful { IfOk result IsLawfulServeLine }
{
    match parse_node_line(alloc, line) {
        Ok(line) => Ok(ServeLine::Node(line)),
        Err(fault) => Err(fault),
    }
}

/// What a line says that begins with this word.
fn read_from(
    alloc: Global,
    first: &Word<'_>,
    words: &mut Words<'_>,
    line: &[u8],
) -> Result<ServeLine, LineFault>
    ensures value { Says result (rules.reading_by (rules.own_form first.now.text.now) (record {
      column = first.now.column;
      text = first.now.text.now;
    }) words.old line.now) }
    ensures lawful { IfOk result IsLawfulServeLine }
{
    let Some(form) = own_form_of(first.text) else {
        return node_line(alloc, line);
    };
    match own_line(form, first, words) {
        Ok(line) => Ok(line),
        Err(offence) => Err(offence.into()),
    }
}

/// What a line says. It comes without its newline, and without the carriage return before that.
///
/// # Errors
///
/// The first word that is wrong and why, or `OutOfMemory`, which only a `store` can meet.
#[tactic(auto, unfolding(crate::specs::Reading::serve_reading_of))]
pub fn parse_serve_line(alloc: Global, line: &[u8]) -> Result<ServeLine, LineFault>
    ensures value { Says result (rules.serve_reading_of line.now) }
    ensures lawful { IfOk result IsLawfulServeLine }
{
    check_bytes(line)?;
    let mut words = Words::new(line);
    match words.next_word() {
        None => node_line(alloc, line),
        Some(first) => read_from(alloc, &first, &mut words, line),
    }
}
