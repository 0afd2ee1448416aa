//! Scripts, first words and summaries, on values from outside: the lines are those of another program, written from the
//! rules in another language, and the words those of another implementation of the generator.

use rand_core::Rng;
use rand_pcg::Lcg64Xsh32;
use std::alloc::{AllocError, Global};
use workload_gen::{Mix, plan_of, summary_of};

/// A seed and the first eight words of its generator.
const FIRST_WORDS: [(u64, [u32; 8]); 5] = [
    (
        0,
        [
            257813417, 407017181, 896943092, 4175973425, 2864827017, 1163259907, 618144122,
            1041812380,
        ],
    ),
    (
        1,
        [
            3380776849, 361947764, 3223725655, 2781001427, 2944471638, 1813784697, 806554406,
            2629966899,
        ],
    ),
    (
        7,
        [
            2215483850, 315054046, 1954657312, 4195553631, 1808639637, 1770728691, 1695204567,
            2592056079,
        ],
    ),
    (
        42,
        [
            1307692281, 3850602322, 1491967504, 4091771729, 3882238836, 1795024040, 2266118430,
            1938801432,
        ],
    ),
    (
        18446744073709551615,
        [
            3795398737, 3572406950, 1916827069, 3687248187, 3217546645, 2066560389, 133210697,
            3703017319,
        ],
    ),
];

/// The opening of scripts with two connections or more, up to the second connection.
const OPENING: &[u8] = b"device 1 10.0.0.1
device 2 10.0.0.2
device 3 10.0.0.3
context a 1
context b 2
domain a.p
domain b.p
region a.m a.p 65536 65536 lwra
region b.n b.p 65536 65536 lwra
cq a.c 4096
cq b.c 4096
qp a.q1 a.p a.c a.c 64 64
qp b.q1 b.p b.c b.c 64 64
connect a.q1 b.q1 mtu 1024 psn 1000 2000 retry 7 rnr 7 reads 4
qp a.q2 a.p a.c a.c 64 64
qp b.q2 b.p b.c b.c 64 64
connect a.q2 b.q2 mtu 1024 psn 2000 4000 retry 7 rnr 7 reads 4
";

/// The lines after the opening among the first 40 for seed 7, 4 connections, 1,000 messages and 5 moves.
const FIRST_LINES: &[u8] = b"qp a.q3 a.p a.c a.c 64 64
qp b.q3 b.p b.c b.c 64 64
connect a.q3 b.q3 mtu 1024 psn 3000 6000 retry 7 rnr 7 reads 4
qp a.q4 a.p a.c a.c 64 64
qp b.q4 b.p b.c b.c 64 64
connect a.q4 b.q4 mtu 1024 psn 4000 8000 retry 7 rnr 7 reads 4
read a.q3 1 01000002 67608 1640 67608 02000003
go a.q3
expire a.q3
recv b.q3 2 02000002 75144 4096
send a.q3 2 01000002 75144 3424
go a.q3
write a.q1 3 01000002 92416 1745 92416 02000003
go a.q1
go a.q1
recv b.q4 4 02000002 95264 4096
send a.q4 4 01000002 95264 3142
settle
add a.q2 5 01000002 87960 87960 02000003 1691
go a.q2
go a.q2
add a.q4 6 01000002 86800 86800 02000003 3252
go a.q4
";

/// The lines after the opening for seed 42, 2 connections, 3 messages and 5 moves: one move stands before the first message.
const ALL_LINES: &[u8] = b"stop b
restore b 3
settle
release b 2
recv b.q2 1 02000002 72672 4096
send a.q2 1 01000002 72672 1844
go a.q2
expire a.q2
stop b
restore b 2
settle
release b 3
stop b
restore b 3
settle
release b 2
add a.q1 2 01000002 84736 84736 02000003 3614
settle
stop b
restore b 2
settle
release b 3
stop b
restore b 3
settle
release b 2
add a.q1 3 01000002 78296 78296 02000003 1657
go a.q1
go a.q1
settle
poll a.c 256
poll b.c 256
";

/// The opening and these lines.
fn opened(alloc: Global, lines: &[u8]) -> Result<Vec<u8>, AllocError> {
    let mut text = Vec::from_slice(alloc, OPENING)?;
    text.extend_from_slice(lines)?;
    Ok(text)
}

/// How many bytes of a script come after the opening and these lines; None where it begins otherwise.
fn rest_of(alloc: Global, script: &[u8], lines: &[u8]) -> Result<Option<usize>, AllocError> {
    let begin = opened(alloc, lines)?;
    let rest = script.strip_prefix(begin.as_slice());
    Ok(rest.map(|rest| rest.len()))
}

/// Of the script for seed 7, 4 connections, 1,000 messages and 5 moves.
fn rest_of_long(alloc: Global) -> Result<Option<usize>, AllocError> {
    let mix = Mix {
        connections: 4,
        messages: 1000,
        moves: 5,
    };
    let script = plan_of(alloc, 7, &mix)?;
    rest_of(alloc, &script, FIRST_LINES)
}

/// Of the script for seed 42, 2 connections, 3 messages and 5 moves.
fn rest_of_short(alloc: Global) -> Result<Option<usize>, AllocError> {
    let mix = Mix {
        connections: 2,
        messages: 3,
        moves: 5,
    };
    let script = plan_of(alloc, 42, &mix)?;
    rest_of(alloc, &script, ALL_LINES)
}

/// Whether the summary of a script and what was told is this line.
fn is_summary(alloc: Global, script: &[u8], told: &[u8], line: &[u8]) -> Result<bool, AllocError> {
    let summary = summary_of(alloc, script, told)?;
    Ok(summary.as_slice() == line)
}

/// The first eight words of the generator of a seed.
fn words_of(seed: u64) -> [u32; 8] {
    let mut generator = Lcg64Xsh32::new(seed, 1);
    let mut words = [0; 8];
    for word in &mut words {
        *word = generator.next_u32();
    }
    words
}

#[test]
fn seeds_have_their_words(rt: HostRuntime) {
    for (seed, words) in FIRST_WORDS {
        assert_eq!(rt; words_of(seed), words, "of seed {seed}");
    }
}

#[test]
fn scripts_have_their_lines(rt: HostRuntime) -> Result<(), AllocError> {
    let long = rest_of_long(rt.alloc())?;
    let short = rest_of_short(rt.alloc())?;
    assert_eq!(rt; (long.is_some(), short), (true, Some(0)));
    Ok(())
}

#[test]
fn a_run_is_summed_up(rt: HostRuntime) -> Result<(), AllocError> {
    let script = b"settle\nrecv b.q 9 02000002 8192 4\nsettle\npoll b.c 4\npoll a.c 4\n";
    let text =
        b"quiet 12\nleft a.q noreceive\nok\nquiet 3\nwc 020001 9 recv 0 4 imm 0000002a\nwc 010001 10 write 10 0\nwc 010001 0 write 12 0\nwc 010001 2 send 0 65536\nnone\n";
    let line = b"bulk lines 5 completions 4 success 2 left 3\n";
    assert!(rt; is_summary(rt.alloc(), script, text, line)?);
    Ok(())
}
