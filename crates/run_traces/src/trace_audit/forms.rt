//! The words that the lines of a trace and of its answers begin with, and words that stand for one thing.

ghost use Rattle.std.specs.Prelude.{◌≡◌};
ghost use Rattle.std.specs.Str.{bytes_eq};
ghost use Rattle.run_traces.specs.Answers as answers;
ghost use Rattle.run_traces.specs.Lines as lines;

use crate::trace_audit::lines::{AnswerForm, LineStart, StepForm, VerbLineForm};
use rdma_types::{Refusal, RefusalReason, WcKind, WcStatus};
use script_lang::verb_form_of;

fn spells(word: &[u8], text: &[u8]) -> bool
    ensures { result ≡ bytes_eq word.now text.now }
{
    word == text
}

/// What a first word names.
#[tactic(auto, unfolding(crate::specs::Lines::leader_of))]
pub fn leader_of(word: &[u8]) -> Option<LineStart>
    ensures { result ≡ lines.leader_of word.now }
{
    let leader = match word {
        _ if spells(word, b"v") => LineStart::Verb,
        _ if spells(word, b"i") => LineStart::Step,
        _ if spells(word, b"end") => LineStart::End,
        _ => return None,
    };
    Some(leader)
}

/// The verb that a word names.
#[tactic(auto, unfolding(crate::specs::Lines::spoken_form))]
pub fn spoken_form(word: &[u8]) -> Option<VerbLineForm>
    ensures { result ≡ lines.spoken_form word.now }
{
    if let Some(verb) = verb_form_of(word) {
        return Some(VerbLineForm::Shared(verb));
    }
    let form = match word {
        _ if spells(word, b"context") => VerbLineForm::Context,
        _ if spells(word, b"connect") => VerbLineForm::Connect,
        _ => return None,
    };
    Some(form)
}

/// Whether the device of a context is made.
#[tactic(auto, unfolding(crate::specs::Lines::made_of))]
pub fn made_of(word: &[u8]) -> Option<bool>
    ensures { result ≡ lines.made_of word.now }
{
    let made = match word {
        _ if spells(word, b"made") => true,
        _ if spells(word, b"none") => false,
        _ => return None,
    };
    Some(made)
}

/// The inner step that a word names.
#[tactic(auto, unfolding(crate::specs::Lines::step_form))]
pub fn step_form(word: &[u8]) -> Option<StepForm>
    ensures { result ≡ lines.step_form word.now }
{
    let form = match word {
        _ if spells(word, b"run") => StepForm::Run,
        _ if spells(word, b"atom") => StepForm::Atom,
        _ if spells(word, b"turn") => StepForm::ReadTurn,
        _ if spells(word, b"refuse") => StepForm::Refuse,
        _ if spells(word, b"dry") => StepForm::Dry,
        _ if spells(word, b"offer") => StepForm::Offer,
        _ if spells(word, b"land") => StepForm::Land,
        _ if spells(word, b"known") => StepForm::Known,
        _ if spells(word, b"tell") => StepForm::Tell,
        _ if spells(word, b"expire") => StepForm::Expire,
        _ if spells(word, b"wait") => StepForm::Wait,
        _ if spells(word, b"bounce") => StepForm::Bounce,
        _ => return None,
    };
    Some(form)
}

/// Why a request is refused.
#[tactic(auto, unfolding(crate::specs::Lines::why_of))]
pub fn why_of(word: &[u8]) -> Option<RefusalReason>
    ensures { result ≡ lines.why_of word.now }
{
    let why = match word {
        _ if spells(word, b"invalid") => RefusalReason::Invalid,
        _ if spells(word, b"access") => RefusalReason::Access,
        _ if spells(word, b"length") => RefusalReason::Length,
        _ => return None,
    };
    Some(why)
}

/// The answer to a verb that a word begins.
#[tactic(auto, unfolding(crate::specs::Answers::answer_form))]
pub fn answer_form(word: &[u8]) -> Option<AnswerForm>
    ensures { result ≡ answers.answer_form word.now }
{
    let form = match word {
        _ if spells(word, b"ok") => AnswerForm::Done,
        _ if spells(word, b"none") => AnswerForm::NoEntry,
        _ if spells(word, b"region") => AnswerForm::Keys,
        _ if spells(word, b"qp") => AnswerForm::Number,
        _ if spells(word, b"bytes") => AnswerForm::Bytes,
        _ if spells(word, b"wc") => AnswerForm::Entry,
        _ if spells(word, b"refused") => AnswerForm::Refused,
        _ => return None,
    };
    Some(form)
}

/// The refusal of a verb that a word names.
#[tactic(auto, unfolding(crate::specs::Answers::refusal_of_word))]
pub fn refusal_of_word(word: &[u8]) -> Option<Refusal>
    ensures { result ≡ answers.refusal_of_word word.now }
{
    let refusal = match word {
        _ if spells(word, b"NoSuch") => Refusal::NoSuch,
        _ if spells(word, b"NumberTaken") => Refusal::NumberTaken,
        _ if spells(word, b"TooMany") => Refusal::TooMany,
        _ if spells(word, b"BadState") => Refusal::BadState,
        _ if spells(word, b"SqFull") => Refusal::SqFull,
        _ if spells(word, b"RqFull") => Refusal::RqFull,
        _ if spells(word, b"CqFull") => Refusal::CqFull,
        _ if spells(word, b"BadKey") => Refusal::BadKey,
        _ if spells(word, b"TooLong") => Refusal::TooLong,
        _ if spells(word, b"InUse") => Refusal::InUse,
        _ if spells(word, b"Stopped") => Refusal::Stopped,
        _ if spells(word, b"NoPage") => Refusal::NoPage,
        _ => return None,
    };
    Some(refusal)
}

/// The kind of a completion that a word names.
#[tactic(auto, unfolding(crate::specs::Answers::kind_of_word))]
pub fn kind_of_word(word: &[u8]) -> Option<WcKind>
    ensures { result ≡ answers.kind_of_word word.now }
{
    let kind = match word {
        _ if spells(word, b"write") => WcKind::Write,
        _ if spells(word, b"send") => WcKind::Send,
        _ if spells(word, b"read") => WcKind::Read,
        _ if spells(word, b"cas") => WcKind::CompareSwap,
        _ if spells(word, b"add") => WcKind::FetchAdd,
        _ if spells(word, b"recv") => WcKind::Recv,
        _ if spells(word, b"recvimm") => WcKind::RecvImm,
        _ => return None,
    };
    Some(kind)
}

/// The status of a completion that a word names.
#[tactic(auto, unfolding(crate::specs::Answers::status_of_word))]
pub fn status_of_word(word: &[u8]) -> Option<WcStatus>
    ensures { result ≡ answers.status_of_word word.now }
{
    let status = match word {
        _ if spells(word, b"0") => WcStatus::Success,
        _ if spells(word, b"1") => WcStatus::LocalLength,
        _ if spells(word, b"5") => WcStatus::Flush,
        _ if spells(word, b"9") => WcStatus::RemoteInvalid,
        _ if spells(word, b"10") => WcStatus::RemoteAccess,
        _ if spells(word, b"12") => WcStatus::RetryExceeded,
        _ if spells(word, b"13") => WcStatus::RnrExceeded,
        _ => return None,
    };
    Some(status)
}
