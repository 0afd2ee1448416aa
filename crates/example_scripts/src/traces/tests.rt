//! Tests of the audit: its calls succeed where there is memory.

use crate::traces::ONE_WRITE;
use run_traces::trace_audit::{AuditFault, AuditWhy, Verdict, audit};
use script_lang::LineWhy;

#[test]
fn one_write(rt: HostRuntime) {
    let found = audit(rt.alloc(), ONE_WRITE);
    assert!(&rt;
        matches!(
            found,
            Ok(Verdict::Legal {
                verbs: 16,
                inner: 2
            })
        )
    );
}

#[test]
fn a_step_that_is_not_enabled(rt: HostRuntime) {
    let found = audit(rt.alloc(), b"v context a made\n= ok\ni tell a.q\nend\n");
    assert!(&rt;
        matches!(
            found,
            Ok(Verdict::Illegal {
                line: 3,
                why: AuditWhy::Step
            })
        )
    );
}

#[test]
fn an_answer_that_is_another(rt: HostRuntime) {
    let found = audit(rt.alloc(), b"v context a none\n= ok\nend\n");
    assert!(&rt;
        matches!(
            found,
            Ok(Verdict::Illegal {
                line: 2,
                why: AuditWhy::Answer
            })
        )
    );
}

#[test]
fn a_bad_line_behind_an_illegal_one(rt: HostRuntime) {
    let found = audit(rt.alloc(), b"i tell a.q\nfly\nend\n");
    assert!(&rt;
        matches!(
            found,
            Err(AuditFault::BadLine {
                line: 2,
                column: 1,
                why: LineWhy::Word
            })
        )
    );
}
