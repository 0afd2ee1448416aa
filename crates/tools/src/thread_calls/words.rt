//! The words of `threads` and `fanout`.

ghost use Rattle.std.specs.Prelude.{◌≡◌, bytes_eq, codes, map, IfSome};
ghost use Rattle.std.specs.String.{string_bytes};
ghost use Rattle.completion_fanout.specs.HandedOut.{IsFanPlan};
ghost use Rattle.thread_plan.specs.Planned.{IsPlan};
ghost use Rattle.tools.specs.Fanout as fan;
ghost use Rattle.tools.specs.Threads as spec;

use command_line::small;
use completion_fanout::FanPlan;
use thread_workers::ThreadPlan;

/// 1 to 8 workers, 1 to 2,000 additions of each and at most 8 moves.
fn plan_of(workers: &str, adds: &str, moves: &str) -> Option<ThreadPlan>
    ensures value { result ≡ spec.plan_of workers.now adds.now moves.now }
    ensures within { IfSome result (λ plan. IsPlan plan) }
{
    Some(ThreadPlan {
        workers: small(workers, 1, 8)?,
        adds: small(adds, 1, 2000)?,
        moves: small(moves, 0, 8)?,
    })
}

/// Whether a word is `threads`.
fn is_threads(word: &[u8]) -> bool
    ensures { result ≡ bytes_eq word.now (codes "threads") }
{
    word == b"threads".as_slice()
}

/// The plan of the words `threads` workers adds moves, without the program's name; None exactly where the words are not
/// those of `threads`.
pub fn threads_of(words: &[String]) -> Option<ThreadPlan>
    ensures value { result ≡ spec.threads_of (map string_bytes words.now) }
    ensures within { IfSome result (λ plan. IsPlan plan) }
{
    match words {
        [word, workers, adds, moves] if is_threads(word.as_bytes()) => plan_of(
            workers, adds, moves,
        ),
        _ => None,
    }
}

/// 1 to 4 consumers, 1 to 10,000 additions and a queue of 1 to 1,024 places.
fn fan_plan_of(consumers: &str, adds: &str, capacity: &str) -> Option<FanPlan>
    ensures value { result ≡ fan.fan_plan_of consumers.now adds.now capacity.now }
    ensures within { IfSome result (λ plan. IsFanPlan plan) }
{
    Some(FanPlan {
        consumers: small(consumers, 1, 4)?,
        adds: small(adds, 1, 10_000)?,
        capacity: small(capacity, 1, 1024)?,
    })
}

/// Whether a word is `fanout`.
fn is_fanout(word: &[u8]) -> bool
    ensures { result ≡ bytes_eq word.now (codes "fanout") }
{
    word == b"fanout".as_slice()
}

/// The plan of the words `fanout` consumers adds capacity, without the program's name; None exactly where the words are not
/// those of `fanout`.
pub fn fanout_of(words: &[String]) -> Option<FanPlan>
    ensures value { result ≡ fan.fanout_of (map string_bytes words.now) }
    ensures within { IfSome result (λ plan. IsFanPlan plan) }
{
    match words {
        [word, consumers, adds, capacity] if is_fanout(word.as_bytes()) => fan_plan_of(
            consumers, adds, capacity,
        ),
        _ => None,
    }
}
