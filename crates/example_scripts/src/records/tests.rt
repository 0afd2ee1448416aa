//! Tests of recording: the call succeeds where there is memory.

use crate::traces::ONE_WRITE;
use run_traces::trace_audit::{AuditFault, Verdict, audit};
use script_lang::LineWhy;
use std::test::Fail;
use trace_record::recorder::record_trace;

/// A script of one write.
const SCRIPT: &[u8] = b"\
device 1 10.0.0.1\n\
device 2 10.0.0.2\n\
device 3 10.0.0.3\n\
context a 1\n\
context b 2\n\
domain a.p\n\
domain b.p\n\
region a.m a.p 4096 64 lwra\n\
region b.n b.p 8192 64 lwra\n\
cq a.c 16\n\
cq b.c 16\n\
qp a.q a.p a.c a.c 8 8\n\
qp b.q b.p b.c b.c 8 8\n\
connect a.q b.q mtu 256 psn 100 200 retry 7 rnr 7 reads 4\n\
store a.m 4096 deadbeef\n\
write a.q 1 01000002 4096 4 8192 02000003\n\
go a.q\n\
deliver 1\n\
wire 2\n\
deliver 2\n\
poll a.c 4\n\
poll a.c 4\n\
load b.n 8192 4\n\
";

#[test]
fn one_write(rt: HostRuntime) -> Result<(), Fail> {
    let trace = record_trace(rt.alloc(), SCRIPT).map_err(|_| "not recorded")?;
    assert!(&rt; trace.as_slice() == ONE_WRITE);
    let found = audit(rt.alloc(), trace.as_slice());
    assert!(&rt;
        matches!(
            found,
            Ok(Verdict::Legal {
                verbs: 16,
                inner: 2
            })
        )
    );
    Ok(())
}

#[test]
fn settling_is_not_recorded(rt: HostRuntime) {
    let found = record_trace(rt.alloc(), b"device 1 10.0.0.1\n  settle all\n");
    assert!(&rt;
        matches!(
            found,
            Err(AuditFault::BadLine {
                line: 2,
                column: 3,
                why: LineWhy::Word
            })
        )
    );
}
