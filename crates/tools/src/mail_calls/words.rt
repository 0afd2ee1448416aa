//! The words of `mail`.

ghost use Rattle.std.specs.Prelude.{◌≡◌, bytes_eq, codes, map, IfSome};
ghost use Rattle.std.specs.String.{string_bytes};
ghost use Rattle.tools.specs.Mails as spec;
ghost use Rattle.tools.specs.Mails.{IsPlan};

use command_line::{number, small};
use mailbox::MailPlan;

/// A seed of 64 bits, 1 to 8 senders, 1 to 500 letters and at most 16 moves.
fn plan_of(seed: &str, peers: &str, letters: &str, moves: &str) -> Option<MailPlan>
    ensures value { result ≡ spec.plan_of seed.now peers.now letters.now moves.now }
    ensures within { IfSome result (λ plan. IsPlan plan) }
{
    Some(MailPlan {
        seed: number(seed, 0, u64::MAX)?,
        peers: small(peers, 1, 8)?,
        letters: small(letters, 1, 500)?,
        moves: small(moves, 0, 16)?,
    })
}

/// Whether a word is `mail`.
fn is_mail(word: &[u8]) -> bool
    ensures { result ≡ bytes_eq word.now (codes "mail") }
{
    word == b"mail".as_slice()
}

/// The plan of the words `mail` seed peers letters moves, without the program's name; None exactly where the words are not
/// those of `mail`.
pub fn mail_of(words: &[String]) -> Option<MailPlan>
    ensures value { result ≡ spec.mail_of (map string_bytes words.now) }
    ensures within { IfSome result (λ plan. IsPlan plan) }
{
    match words {
        [word, seed, peers, letters, moves] if is_mail(word.as_bytes()) => plan_of(
            seed, peers, letters, moves,
        ),
        _ => None,
    }
}
