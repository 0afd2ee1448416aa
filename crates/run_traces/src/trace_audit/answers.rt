//! The lines of answers in a trace.

ghost use Rattle.std.specs.Prelude.{◌≡◌, ◌++◌, ◌∷◌, [], Some, IfOk, bytes_eq};
ghost use Rattle.script_lang.specs.Lines.{Says, said, whole};
ghost use Rattle.script_lang.specs.Printed.{printed};
ghost use Rattle.script_lang.specs.Words.{Gives, GivesOr};
ghost use Rattle.run_traces.specs.Answers as answers;
ghost use Rattle.run_traces.specs.Answers.{answer_of_line, given_in};

use crate::trace_audit::forms;
use crate::trace_audit::lines::AnswerForm;
use rdma_types::{Answer, Completion, Items, Keys, Verb};
use script_lang::{LineFault, LineWhy, Offence, Words, print_answer};
use std::alloc::{AllocError, Global};

/// `region` local key, remote key
#[tactic(auto, unfolding(crate::specs::Answers::keys_said))]
fn keys(words: &mut Words<'_>) -> Result<Answer, Offence>
    ensures { Gives result words.new (answers.keys_said words.old) }
{
    let local = words.key()?;
    let remote = words.key()?;
    Ok(Answer::Region(Keys { local, remote }))
}

/// `qp` number
#[tactic(auto, unfolding(crate::specs::Answers::number_said))]
fn number(words: &mut Words<'_>) -> Result<Answer, Offence>
    ensures { Gives result words.new (answers.number_said words.old) }
{
    Ok(Answer::Qp(words.queue_pair()?))
}

/// `bytes` and these
#[tactic(auto, unfolding(crate::specs::Answers::bytes_said))]
fn bytes(alloc: Global, words: &mut Words<'_>) -> Result<Answer, LineFault>
    ensures { GivesOr result words.new (answers.bytes_said words.old) }
{
    Ok(Answer::Bytes(words.bytes(alloc)?))
}

/// `refused` and a refusal
#[tactic(auto, unfolding(crate::specs::Answers::refusal_said))]
fn refusal(words: &mut Words<'_>) -> Result<Answer, Offence>
    ensures { Gives result words.new (answers.refusal_said words.old) }
{
    let word = words.word()?;
    let refusal = forms::refusal_of_word(word.text).ok_or(word.bad(LineWhy::Word))?;
    Ok(Answer::Refused(refusal))
}

/// A list of one completion.
fn one(alloc: Global, completion: Completion) -> Result<Items<Completion>, AllocError>
    ensures { IfOk result (λ list. list ≡ completion ∷ []) }
{
    let mut list = Vec::new(alloc);
    list.push(completion)?;
    Ok(Items::new(list))
}

/// `wc` queue pair, id, kind, status, length, and perhaps `imm` i
#[tactic(auto, unfolding(crate::specs::Answers::entry_said))]
fn entry(alloc: Global, words: &mut Words<'_>) -> Result<Answer, LineFault>
    ensures { GivesOr result words.new (answers.entry_said words.old) }
{
    let qp = words.queue_pair()?;
    let id = words.long()?;
    let word = words.word()?;
    let kind = forms::kind_of_word(word.text).ok_or(word.bad(LineWhy::Word))?;
    let word = words.word()?;
    let status = forms::status_of_word(word.text).ok_or(word.bad(LineWhy::Word))?;
    let length = words.short()?;
    let imm = words.immediate()?;
    let completion = Completion {
        qp,
        id,
        kind,
        status,
        length,
        imm,
    };
    Ok(Answer::Polled(one(alloc, completion)?))
}

/// What the words behind the first say.
#[tactic(auto, unfolding(crate::specs::Answers::answer_said))]
fn answer_said(alloc: Global, form: AnswerForm, words: &mut Words<'_>) -> Result<Answer, LineFault>
    ensures { GivesOr result words.new (answers.answer_said form words.old) }
{
    let answer = match form {
        AnswerForm::Bytes => return bytes(alloc, words),
        AnswerForm::Entry => return entry(alloc, words),
        AnswerForm::Done => Answer::Done,
        AnswerForm::NoEntry => Answer::Polled(Items::new(Vec::new(alloc))),
        AnswerForm::Keys => keys(words)?,
        AnswerForm::Number => number(words)?,
        AnswerForm::Refused => refusal(words)?,
    };
    Ok(answer)
}

/// What the words of a line of an answer say.
#[tactic(auto, unfolding(crate::specs::Answers::words_said))]
fn words_said(alloc: Global, words: &mut Words<'_>) -> Result<Answer, LineFault>
    ensures { GivesOr result words.new (answers.words_said words.old) }
{
    let word = words.word()?;
    let form = forms::answer_form(word.text).ok_or(word.bad(LineWhy::Word))?;
    answer_said(alloc, form, words)
}

/// What the words of a line of an answer say, where none is left.
fn whole_answer(alloc: Global, words: &mut Words<'_>) -> Result<Answer, LineFault>
    ensures { Says result (said (whole answers.words_said words.old)) }
{
    let answer = words_said(alloc, words)?;
    words.end()?;
    Ok(answer)
}

/// Whether bytes are this line and its newline.
pub fn is_line(bytes: &[u8], line: &[u8]) -> bool
    ensures { result ≡ bytes_eq bytes.now (line.now ++ 10 ∷ []) }
{
    match bytes.split_last() {
        Some((last, prefix)) => *last == b'\n' && prefix == line,
        None => false,
    }
}

/// Whether an answer is printed as this very line. Errors: `AllocError` when out of memory.
fn is_printed_as(alloc: Global, answer: &Answer, text: &[u8]) -> Result<bool, AllocError>
    ensures { IfOk result (λ is. is ≡ bytes_eq (printed answer.now) (text.now ++ 10 ∷ [])) }
{
    let mut bytes = Vec::new(alloc);
    print_answer(answer, &mut bytes)?;
    Ok(is_line(bytes.as_slice(), text))
}

/// The answer of one line that a text is, where it is an answer to some verb. Errors: `AllocError` when out of memory.
#[tactic(auto, unfolding(crate::specs::Answers::answer_of_line))]
pub fn answer_of(alloc: Global, text: &[u8]) -> Result<Option<Answer>, AllocError>
    ensures { IfOk result (λ answer. answer ≡ answer_of_line text.now) }
{
    let answer = match whole_answer(alloc, &mut Words::new(text)) {
        Ok(answer) => answer,
        Err(LineFault::Bad { .. }) => return Ok(None),
        Err(LineFault::OutOfMemory) => return Err(AllocError),
    };
    if is_printed_as(alloc, &answer, text)? {
        Ok(Some(answer))
    } else {
        Ok(None)
    }
}

/// The key or number that a line of an answer says is given by the verb; any other verb gives none, which stands as 0.
pub fn given_by(verb: &Verb, answer: &Answer) -> Option<u32>
    ensures { result ≡ given_in verb.now (Some answer.now) }
{
    match (verb, answer) {
        (Verb::MakeRegion { .. }, Answer::Region(keys)) => Some(keys.local),
        (Verb::MakeQp { .. }, Answer::Qp(number)) => Some(*number),
        (Verb::MakeRegion { .. } | Verb::MakeQp { .. }, _) => None,
        _ => Some(0),
    }
}
