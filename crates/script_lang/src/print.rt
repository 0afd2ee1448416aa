//! The text of an answer.

ghost use Rattle.std.specs.Prelude.{◌≡◌, ◌++◌, [], ◌∷◌, OnOk, OnErr, codes, drop, length};
ghost use Rattle.std.specs.Fmt.{decimal};
ghost use Rattle.std.specs.Int.{w32, to_be_bytes};
ghost use Rattle.hex.specs.Hex.{encode_lower};
ghost use Rattle.script_lang.specs.Printed as text;
ghost use Rattle.script_lang.specs.Printed.{Keeps, ended};

mod laws;

pub use laws::{answers_are_whole_lines, each_has_a_word_of_its_own};
use rdma_types::{
    Answer, ArrivalEffect, Completion, DropReason, ExpiryIgnored, Keys, ObjName, Refusal,
    RefusalReason, UnfinishedReason, WcKind, WcStatus,
};
use std::alloc::AllocError;

fn kind_text(kind: WcKind) -> &'static [u8]
    ensures { result.now ≡ text.kind_text kind }
{
    match kind {
        WcKind::Write => b"write",
        WcKind::Send => b"send",
        WcKind::Read => b"read",
        WcKind::CompareSwap => b"cas",
        WcKind::FetchAdd => b"add",
        WcKind::Recv => b"recv",
        WcKind::RecvImm => b"recvimm",
    }
}

fn status_text(status: WcStatus) -> &'static [u8]
    ensures { result.now ≡ decimal (text.status_number status) }
{
    match status {
        WcStatus::Success => b"0",
        WcStatus::LocalLength => b"1",
        WcStatus::Flush => b"5",
        WcStatus::RemoteInvalid => b"9",
        WcStatus::RemoteAccess => b"10",
        WcStatus::RetryExceeded => b"12",
        WcStatus::RnrExceeded => b"13",
    }
}

fn refusal_text(refusal: Refusal) -> &'static [u8]
    ensures { result.now ≡ text.refusal_text refusal }
{
    match refusal {
        Refusal::NoSuch => b"NoSuch",
        Refusal::NumberTaken => b"NumberTaken",
        Refusal::TooMany => b"TooMany",
        Refusal::BadState => b"BadState",
        Refusal::SqFull => b"SqFull",
        Refusal::RqFull => b"RqFull",
        Refusal::CqFull => b"CqFull",
        Refusal::BadKey => b"BadKey",
        Refusal::TooLong => b"TooLong",
        Refusal::InUse => b"InUse",
        Refusal::Stopped => b"Stopped",
        Refusal::PeerMoving => b"PeerMoving",
        Refusal::Spent => b"Spent",
        Refusal::NoPage => b"NoPage",
    }
}

fn not_why_text(why: ExpiryIgnored) -> &'static [u8]
    ensures { result.now ≡ text.not_why_text why }
{
    match why {
        ExpiryIgnored::Ended => b"ended",
        ExpiryIgnored::Paused => b"paused",
        ExpiryIgnored::Resuming => b"resuming",
        ExpiryIgnored::Rnr => b"rnr",
        ExpiryIgnored::Nothing => b"nothing",
    }
}

fn why_text(why: RefusalReason) -> &'static [u8]
    ensures { result.now ≡ text.why_text why }
{
    match why {
        RefusalReason::Invalid => b"invalid",
        RefusalReason::Access => b"access",
        RefusalReason::Length => b"length",
    }
}

fn silent_text(why: DropReason) -> &'static [u8]
    ensures { result.now ≡ text.silent_text why }
{
    match why {
        DropReason::Malformed => b"malformed",
        DropReason::Unknown => b"unknown",
        DropReason::Ended => b"ended",
        DropReason::Paused => b"paused",
        DropReason::NakSent => b"naksent",
        DropReason::NoRepeat => b"norepeat",
        DropReason::Useless => b"useless",
        DropReason::Stale => b"stale",
    }
}

fn left_text(why: UnfinishedReason) -> &'static [u8]
    ensures { result.now ≡ text.left_text why }
{
    match why {
        UnfinishedReason::Paused => b"paused",
        UnfinishedReason::Resuming => b"resuming",
        UnfinishedReason::NoReceive => b"noreceive",
        UnfinishedReason::Carried => b"carried",
    }
}

/// What an arrival did: `took` and a word, and what is told of it, possibly without bytes.
#[tactic(auto, unfolding(crate::specs::Printed::took_text))]
fn took_text(took: ArrivalEffect) -> (&'static [u8], &'static [u8])
    ensures { result.0.now ++ result.1.now ≡ codes "took " ++ text.took_text took }
{
    match took {
        ArrivalEffect::Acted => (b"took acted", b""),
        ArrivalEffect::Ack => (b"took ack", b""),
        ArrivalEffect::Bytes => (b"took bytes", b""),
        ArrivalEffect::Old => (b"took old", b""),
        ArrivalEffect::SeqNak => (b"took seqnak", b""),
        ArrivalEffect::NotReady => (b"took notready", b""),
        ArrivalEffect::DupAck => (b"took dupack", b""),
        ArrivalEffect::Refused(why) => (b"took refused ", why_text(why)),
        ArrivalEffect::Acked => (b"took acked", b""),
        ArrivalEffect::Landed => (b"took landed", b""),
        ArrivalEffect::Rewound => (b"took rewound", b""),
        ArrivalEffect::Waits => (b"took waits", b""),
        ArrivalEffect::Ended(status) => (b"took ended ", status_text(status)),
        ArrivalEffect::Stopped => (b"took stopped", b""),
        ArrivalEffect::Paused => (b"took paused", b""),
        ArrivalEffect::Resumed => (b"took resumed", b""),
        ArrivalEffect::ResumeAck => (b"took resumeack", b""),
        ArrivalEffect::Running => (b"took running", b""),
        ArrivalEffect::Silent(why) => (b"took silent ", silent_text(why)),
    }
}

fn put(out: &mut Vec<u8>, bytes: &[u8]) -> Result<(), AllocError>
    ensures ok { OnOk result (out.new.items ≡ out.old.items ++ bytes.now) }
    ensures err { OnErr result (Keeps out.old.items out.new.items) }
{
    out.extend_from_slice(bytes)
}

#[inline(always)]
fn put_pair(out: &mut Vec<u8>, first: &[u8], second: &[u8]) -> Result<(), AllocError>
    ensures ok { OnOk result (out.new.items ≡ out.old.items ++ (first.now ++ second.now)) }
    ensures err { OnErr result (Keeps out.old.items out.new.items) }
{
    put(out, first)?;
    put(out, second)
}

/// A text and a number.
#[inline(always)]
fn put_number(out: &mut Vec<u8>, word: &[u8], n: u64) -> Result<(), AllocError>
    ensures ok { OnOk result (out.new.items ≡ out.old.items ++ (word.now ++ decimal n)) }
    ensures err { OnErr result (Keeps out.old.items out.new.items) }
{
    let mut buffer = itoa::Buffer::new();
    put_pair(out, word, buffer.format(n).as_bytes())
}

#[tactic(auto, unfolding(hex::specs::Hex::encode_with))]
fn hex_pair(b: u8) -> [u8; 2]
    ensures { result ≡ encode_lower (b ∷ []) }
{
    let digits = b"0123456789abcdef";
    [digits[usize::from(b / 16)], digits[usize::from(b % 16)]]
}

/// A text and bytes in hexadecimal digits.
fn put_hex(out: &mut Vec<u8>, word: &[u8], bytes: &[u8]) -> Result<(), AllocError>
    ensures ok { OnOk result (out.new.items ≡ out.old.items
        ++ (word.now ++ encode_lower bytes.now)) }
    ensures err { OnErr result (Keeps out.old.items out.new.items) }
{
    put(out, word)?;
    for b in bytes {
        put(out, &hex_pair(*b))?;
    }
    Ok(())
}

/// The three low bytes of a number, the highest of them first.
fn low_bytes(n: u32) -> [u8; 3]
    ensures { result ≡ drop 1 (to_be_bytes w32 n) }
{
    let [_, high, middle, low] = n.to_be_bytes();
    [high, middle, low]
}

/// A line of a text and a word.
fn put_told(out: &mut Vec<u8>, word: &[u8], what: &[u8]) -> Result<(), AllocError>
    ensures ok { OnOk result (out.new.items ≡ out.old.items
        ++ (word.now ++ (what.now ++ 10 ∷ []))) }
    ensures err { OnErr result (Keeps out.old.items out.new.items) }
{
    put_pair(out, word, what)?;
    put(out, b"\n")
}

/// A line of a text and a number.
fn put_count(out: &mut Vec<u8>, word: &[u8], n: u64) -> Result<(), AllocError>
    ensures ok { OnOk result (out.new.items ≡ out.old.items
        ++ (word.now ++ (decimal n ++ 10 ∷ []))) }
    ensures err { OnErr result (Keeps out.old.items out.new.items) }
{
    put_number(out, word, n)?;
    put(out, b"\n")
}

/// A line of a text and bytes in hexadecimal digits.
fn put_bytes(out: &mut Vec<u8>, word: &[u8], bytes: &[u8]) -> Result<(), AllocError>
    ensures ok { OnOk result (out.new.items
        ≡ out.old.items ++ (word.now ++ (encode_lower bytes.now ++ 10 ∷ []))) }
    ensures err { OnErr result (Keeps out.old.items out.new.items) }
{
    put_hex(out, word, bytes)?;
    put(out, b"\n")
}

#[tactic(auto, using(crate::proofs::Writing::keeps_after, std::proofs::lemmas::List::append_assoc))]
fn put_region(out: &mut Vec<u8>, keys: &Keys) -> Result<(), AllocError>
    ensures ok { OnOk result (out.new.items
        ≡ out.old.items ++ (codes "region " ++ (text.key_text keys.now.local ++ (32 ∷ (text.key_text keys.now.remote ++ 10 ∷ []))))) }
    ensures err { OnErr result (Keeps out.old.items out.new.items) }
{
    put_hex(out, b"region ", &keys.local.to_be_bytes())?;
    put_bytes(out, b" ", &keys.remote.to_be_bytes())
}

/// The numbers of the datagrams that were sent.
#[tactic(auto, using(crate::proofs::Writing::keeps_after, std::proofs::lemmas::List::append_assoc), unfolding(crate::specs::Printed::sent_words))]
fn put_sent(out: &mut Vec<u8>, first: u64, count: u64) -> Result<(), AllocError>
    ensures ok { OnOk result (out.new.items ≡ out.old.items
        ++ ended (text.sent_words first count)) }
    ensures err { OnErr result (Keeps out.old.items out.new.items) }
{
    if count == 0 {
        return put(out, b"\n");
    }
    if count == 1 {
        return put_count(out, b" sent ", first);
    }
    put_number(out, b" sent ", first)?;
    let last = u128::from(first) + u128::from(count) - 1;
    let mut buffer = itoa::Buffer::new();
    put_told(out, b" to ", buffer.format(last).as_bytes())
}

#[tactic(auto, using(crate::proofs::Writing::keeps_after, std::proofs::lemmas::List::append_assoc))]
fn put_took(
    out: &mut Vec<u8>,
    took: ArrivalEffect,
    first: u64,
    count: u64,
) -> Result<(), AllocError>
    ensures ok { OnOk result (out.new.items
        ≡ out.old.items ++ (codes "took " ++ (text.took_text took ++ ended (text.sent_words first count)))) }
    ensures err { OnErr result (Keeps out.old.items out.new.items) }
{
    let (words, more) = took_text(took);
    put_pair(out, words, more)?;
    put_sent(out, first, count)
}

#[tactic(auto, using(crate::proofs::Writing::keeps_after, std::proofs::lemmas::List::append_assoc), unfolding(crate::specs::Printed::imm_words))]
fn put_imm(out: &mut Vec<u8>, imm: Option<u32>) -> Result<(), AllocError>
    ensures ok { OnOk result (out.new.items ≡ out.old.items ++ ended (text.imm_words imm)) }
    ensures err { OnErr result (Keeps out.old.items out.new.items) }
{
    match imm {
        None => put(out, b"\n"),
        Some(imm) => put_bytes(out, b" imm ", &imm.to_be_bytes()),
    }
}

/// The queue pair of a completion and the id of its request.
#[tactic(auto, using(crate::proofs::Writing::keeps_after, std::proofs::lemmas::List::append_assoc))]
fn put_request(out: &mut Vec<u8>, completion: &Completion) -> Result<(), AllocError>
    ensures ok { OnOk result (out.new.items
        ≡ out.old.items ++ (codes "wc " ++ (text.qp_text completion.now.qp ++ (32 ∷ decimal completion.now.id)))) }
    ensures err { OnErr result (Keeps out.old.items out.new.items) }
{
    put_hex(out, b"wc ", &low_bytes(completion.qp))?;
    put_number(out, b" ", completion.id)
}

/// The kind, the status and the length of a completion.
#[tactic(auto, using(crate::proofs::Writing::keeps_after, std::proofs::lemmas::List::append_assoc))]
fn put_outcome(out: &mut Vec<u8>, completion: &Completion) -> Result<(), AllocError>
    ensures ok { OnOk result (out.new.items ≡ out.old.items ++ text.outcome completion.now) }
    ensures err { OnErr result (Keeps out.old.items out.new.items) }
{
    put_pair(out, b" ", kind_text(completion.kind))?;
    put_pair(out, b" ", status_text(completion.status))?;
    put_number(out, b" ", u64::from(completion.length))
}

#[tactic(auto, using(crate::proofs::Writing::keeps_after, std::proofs::lemmas::List::append_assoc), unfolding(crate::specs::Printed::completion_line))]
fn put_completion(out: &mut Vec<u8>, completion: &Completion) -> Result<(), AllocError>
    ensures ok { OnOk result (out.new.items ≡ out.old.items
        ++ text.completion_line completion.now) }
    ensures err { OnErr result (Keeps out.old.items out.new.items) }
{
    put_request(out, completion)?;
    put_outcome(out, completion)?;
    put_imm(out, completion.imm)
}

fn put_completions(out: &mut Vec<u8>, completions: &[Completion]) -> Result<(), AllocError>
    ensures ok { OnOk result (out.new.items ≡ out.old.items
        ++ text.completion_lines completions.now) }
    ensures err { OnErr result (Keeps out.old.items out.new.items) }
{
    for completion in completions {
        put_completion(out, completion)?;
    }
    Ok(())
}

#[tactic(auto, unfolding(crate::specs::Printed::polled_lines))]
fn put_polled(out: &mut Vec<u8>, completions: &[Completion]) -> Result<(), AllocError>
    ensures ok { OnOk result (out.new.items ≡ out.old.items ++ text.polled_lines completions.now) }
    ensures err { OnErr result (Keeps out.old.items out.new.items) }
{
    match completions {
        [] => put(out, b"none\n"),
        [_, ..] => put_completions(out, completions),
    }
}

fn put_object(out: &mut Vec<u8>, object: &ObjName) -> Result<(), AllocError>
    ensures ok { OnOk result (out.new.items ≡ out.old.items ++ text.object_text object.now) }
    ensures err { OnErr result (Keeps out.old.items out.new.items) }
{
    put_pair(out, object.context.as_bytes(), b".")?;
    put(out, object.name.as_bytes())
}

#[tactic(auto, using(crate::proofs::Writing::keeps_after, std::proofs::lemmas::List::append_assoc))]
fn put_left(out: &mut Vec<u8>, end: &(ObjName, UnfinishedReason)) -> Result<(), AllocError>
    ensures ok { OnOk result (out.new.items ≡ out.old.items ++ text.left_line end.now) }
    ensures err { OnErr result (Keeps out.old.items out.new.items) }
{
    put(out, b"left ")?;
    put_object(out, &end.0)?;
    put_told(out, b" ", left_text(end.1))
}

fn put_left_lines(out: &mut Vec<u8>, ends: &[(ObjName, UnfinishedReason)]) -> Result<(), AllocError>
    ensures ok { OnOk result (out.new.items ≡ out.old.items ++ text.left_lines ends.now) }
    ensures err { OnErr result (Keeps out.old.items out.new.items) }
{
    for end in ends {
        put_left(out, end)?;
    }
    Ok(())
}

#[tactic(auto, using(crate::proofs::Writing::keeps_after, std::proofs::lemmas::List::append_assoc))]
fn put_quiet(out: &mut Vec<u8>, ends: &[(ObjName, UnfinishedReason)]) -> Result<(), AllocError>
    ensures ok { OnOk result (out.new.items
        ≡ out.old.items ++ (codes "quiet " ++ (decimal (length ends.now) ++ (10 ∷ text.left_lines ends.now)))) }
    ensures err { OnErr result (Keeps out.old.items out.new.items) }
{
    put_count(out, b"quiet ", ends.len() as u64)?;
    put_left_lines(out, ends)
}

/// The bytes of a dump, where any are shown.
#[tactic(auto, unfolding(crate::specs::Printed::shown_words))]
fn put_shown(out: &mut Vec<u8>, bytes: &[u8]) -> Result<(), AllocError>
    ensures ok { OnOk result (out.new.items ≡ out.old.items ++ ended (text.shown_words bytes.now)) }
    ensures err { OnErr result (Keeps out.old.items out.new.items) }
{
    match bytes {
        [] => put(out, b"\n"),
        [_, ..] => put_bytes(out, b" ", bytes),
    }
}

#[tactic(auto, using(crate::proofs::Writing::keeps_after, std::proofs::lemmas::List::append_assoc))]
fn put_dump(out: &mut Vec<u8>, count: u64, bytes: &[u8]) -> Result<(), AllocError>
    ensures ok { OnOk result (out.new.items
        ≡ out.old.items ++ (codes "dump " ++ (decimal count ++ ended (text.shown_words bytes.now)))) }
    ensures err { OnErr result (Keeps out.old.items out.new.items) }
{
    put_number(out, b"dump ", count)?;
    put_shown(out, bytes)
}

#[tactic(auto, using(crate::proofs::Writing::keeps_after, std::proofs::lemmas::List::append_assoc), unfolding(crate::specs::Printed::printed))]
fn put_answer(out: &mut Vec<u8>, answer: &Answer) -> Result<(), AllocError>
    ensures ok { OnOk result (out.new.items ≡ out.old.items ++ text.printed answer.now) }
    ensures err { OnErr result (Keeps out.old.items out.new.items) }
{
    match answer {
        Answer::Done => put(out, b"ok\n"),
        Answer::Stopped => put(out, b"stopped\n"),
        Answer::Region(keys) => put_region(out, keys),
        Answer::Qp(number) => put_bytes(out, b"qp ", &low_bytes(*number)),
        Answer::Bytes(bytes) => put_bytes(out, b"bytes ", bytes.as_slice()),
        Answer::Polled(completions) => put_polled(out, completions.as_slice()),
        Answer::Sent { first } => put_count(out, b"sent ", *first),
        Answer::Idle => put(out, b"idle\n"),
        Answer::WindowFull => put(out, b"window\n"),
        Answer::ReadsFull => put(out, b"reads\n"),
        Answer::Fenced => put(out, b"fenced\n"),
        Answer::Waiting => put(out, b"waiting\n"),
        Answer::Took { took, first, count } => put_took(out, *took, *first, *count),
        Answer::Expired(spent) => put_count(out, b"expired ", u64::from(*spent)),
        Answer::Spent => put(out, b"spent\n"),
        Answer::NotCounted(why) => put_told(out, b"notcounted ", not_why_text(*why)),
        Answer::Over => put(out, b"over\n"),
        Answer::NotWaiting => put(out, b"notwaiting\n"),
        Answer::Wire(bytes) => put_bytes(out, b"wire ", bytes.as_slice()),
        Answer::Gone => put(out, b"gone\n"),
        Answer::Lost => put(out, b"lost\n"),
        Answer::Aged => put(out, b"aged\n"),
        Answer::Dump { length, shown } => put_dump(out, *length, shown.as_slice()),
        Answer::Quiet(ends) => put_quiet(out, ends.as_slice()),
        Answer::Refused(refusal) => put_told(out, b"refused ", refusal_text(*refusal)),
    }
}

/// Puts the text of an answer after what is there: a line, or for a poll and for settling a line for each thing told
/// (this project's choice). It takes time in proportion to the text.
///
/// # Errors
///
/// `AllocError` when out of memory; `out` is then as it was.
#[inline(always)]
pub fn print_answer(answer: &Answer, out: &mut Vec<u8>) -> Result<(), AllocError>
    ensures ok { OnOk result (out.new.items ≡ out.old.items ++ text.printed answer.now) }
    ensures err { OnErr result (out.new.items ≡ out.old.items) }
{
    let before = out.len();
    let printed = put_answer(out, answer);
    if printed.is_err() {
        out.truncate(before);
    }
    printed
}
