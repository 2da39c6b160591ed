//! A text, piece by piece.
ghost use Rattle.std.specs.Prelude.{◌≡◌, ◌<◌, ◌≤◌, [], ◌∷◌, length, take, drop, MatchOption};
ghost use Rattle.report.specs.Pieces.{pieces};

use memchr::memchr;
use std::marker::Model;

// The end of the first piece of a text that has one: before the first line behind another that starts with R, or at the text's end.
fn piece_end(text: &[u8]) -> usize
    requires { 0 < length text.now }
    ensures some { 0 < result }
    ensures within { result ≤ length text.now }
    ensures piece { pieces text.now
        ≡ take result text.now ∷ pieces (drop result text.now) }
{
    let mut end: usize = 0;
    while let Some(k) = memchr(b'\n', &text[end..]) {
        end += k + 1;
        if end < text.len() && text[end] == b'R' {
            return end;
        }
    }
    text.len()
}

/// The pieces of a text that are left to be taken.
#[derive(Drop)]
pub struct Pieces<'a> {
    rest: &'a [u8],
}

// A caller sees the list of the pieces.
impl<'a> Model for Pieces<'a> {
    ghost use Rattle.std.specs.Prelude.{ℕ, List};
    ghost use Rattle.report.specs.Pieces.{pieces};

    ghost Value = { List (List ℕ) };

    ghost view = { λ p. pieces p.rest.now };
}

impl<'a> Pieces<'a> {
    /// The pieces of a text.
    pub fn of(text: &'a [u8]) -> Self
        ensures { result ≡ pieces text.now }
    {
        Pieces { rest: text }
    }

    /// The next piece, where one is left.
    pub fn next_piece(&mut self) -> Option<&'a [u8]>
        ensures { MatchOption result ((self.old ≡ []) × (self.new ≡ []))
            (λ p. (self.old ≡ p.now ∷ self.new) × (0 < length p.now)) }
    {
        let text = self.rest;
        if text.is_empty() {
            return None;
        }
        let end = piece_end(text);
        self.rest = &text[end..];
        Some(&text[..end])
    }
}
