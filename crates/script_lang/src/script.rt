//! The lines of a script.

ghost use Rattle.std.specs.Prelude.{◌≡◌, ◌<◌, [], ◌∷◌, length, IfSome, IfNone};
ghost use Rattle.script_lang.specs.Scripts as scripts;
ghost use Rattle.script_lang.specs.Scripts.{lines_of};

use memchr::memchr;
use std::marker::Model;

/// The lines of a script that are still to come, without their ends: a newline, and a carriage return right before it.
/// Contracts see them as a list. The last line may lack its newline, and keeps a carriage return then.
#[derive(Drop)]
pub struct Lines<'a> {
    rest: &'a [u8],
}

impl<'a> Model for Lines<'a> {
    ghost use Rattle.std.specs.Prelude.{ℕ, List};
    ghost use Rattle.script_lang.specs.Scripts.{lines_of};

    ghost Value = { List (List ℕ) };

    ghost view = { λ l. lines_of l.rest.now };
}

fn without_return(line: &[u8]) -> &[u8]
    ensures { result.now ≡ scripts.without_return line.now }
{
    match line {
        [front @ .., b'\r'] => front,
        _ => line,
    }
}

/// The first line of a text that has bytes, and the text behind its end.
#[tactic(auto, using(crate::proofs::Cutting::line_before, crate::proofs::Cutting::last_line))]
fn first_line(text: &[u8]) -> (&[u8], &[u8])
    requires { 0 < length text.now }
    ensures { lines_of text.now ≡ result.0.now ∷ lines_of result.1.now }
{
    match memchr(b'\n', text) {
        Some(end) => (without_return(&text[..end]), &text[end + 1..]),
        None => (text, &[]),
    }
}

impl<'a> Lines<'a> {
    /// The lines of a script.
    pub fn new(text: &'a [u8]) -> Lines<'a>
        ensures { result ≡ lines_of text.now }
    {
        Lines { rest: text }
    }

    /// The next line, if there is one.
    #[tactic(auto, using(crate::proofs::Cutting::no_lines_in))]
    pub fn next_line(&mut self) -> Option<&'a [u8]>
        ensures line { IfSome result (λ line. self.old ≡ line.now ∷ self.new) }
        ensures end { IfNone result (self.old ≡ []) }
        ensures ended { IfNone result (self.new ≡ []) }
    {
        if self.rest.is_empty() {
            return None;
        }
        let (line, rest) = first_line(self.rest);
        self.rest = rest;
        Some(line)
    }
}
