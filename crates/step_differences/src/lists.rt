//! Whether lists of plain values, and runs of bytes, are equal.

ghost use Rattle.std.specs.Prelude.{◌≡◌, ◌↔◌, IsTrue};

use byte_run::ByteRun;
use protocol::KeptReply;
use rdma_types::{Completion, Name, ObjName, Receive, UnfinishedReason};

/// Equal names.
fn same_name(a: &Name, b: &Name) -> bool
    ensures { IsTrue result ↔ (a.now ≡ b.now) }
{
    a == b
}

/// Equal lists of names.
pub fn same_names(a: &[Name], b: &[Name]) -> bool
    ensures { IsTrue result ↔ (a.now ≡ b.now) }
{
    if a.len() != b.len() {
        return false;
    }
    for i in 0..a.len() {
        if !same_name(&a[i], &b[i]) {
            return false;
        }
    }
    true
}

/// Equal completions.
pub fn same_completions(a: &[Completion], b: &[Completion]) -> bool
    ensures { IsTrue result ↔ (a.now ≡ b.now) }
{
    if a.len() != b.len() {
        return false;
    }
    for i in 0..a.len() {
        if a[i] != b[i] {
            return false;
        }
    }
    true
}

/// Equal receives.
pub fn same_receives(a: &[Receive], b: &[Receive]) -> bool
    ensures { IsTrue result ↔ (a.now ≡ b.now) }
{
    if a.len() != b.len() {
        return false;
    }
    for i in 0..a.len() {
        if a[i] != b[i] {
            return false;
        }
    }
    true
}

/// Equal kept replies.
pub fn same_replies(a: &[KeptReply], b: &[KeptReply]) -> bool
    ensures { IsTrue result ↔ (a.now ≡ b.now) }
{
    if a.len() != b.len() {
        return false;
    }
    for i in 0..a.len() {
        if a[i] != b[i] {
            return false;
        }
    }
    true
}

/// Equal ends with equal reasons.
fn same_one(a: &(ObjName, UnfinishedReason), b: &(ObjName, UnfinishedReason)) -> bool
    ensures { IsTrue result ↔ (a.now ≡ b.now) }
{
    a.0 == b.0 && a.1 == b.1
}

/// Equal lists of ends with their reasons.
pub fn same_left(a: &[(ObjName, UnfinishedReason)], b: &[(ObjName, UnfinishedReason)]) -> bool
    ensures { IsTrue result ↔ (a.now ≡ b.now) }
{
    if a.len() != b.len() {
        return false;
    }
    for i in 0..a.len() {
        if !same_one(&a[i], &b[i]) {
            return false;
        }
    }
    true
}

/// Equal bytes.
pub fn same_runs(a: &ByteRun, b: &ByteRun) -> bool
    ensures { IsTrue result ↔ (a.now ≡ b.now) }
{
    if a.len() != b.len() {
        return false;
    }
    let mut done = 0;
    while done < a.len() {
        let piece = a.piece(done);
        if piece != b.piece(done) {
            return false;
        }
        done += piece.len() as u64;
    }
    true
}
