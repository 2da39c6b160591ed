//! A text, line by line.
ghost use Rattle.std.specs.Prelude.{
  ◌≡◌,
  ◌<◌,
  ◌≤◌,
  [],
  ◌∷◌,
  drop,
  length,
  IfOk,
  IfErr,
  MatchOption,
};
ghost use Rattle.ring.specs.Limits.{desk};
ghost use Rattle.text.specs.ReadLine.{read_line};
ghost use Rattle.text.specs.ReadRing.{read_ring};
ghost use Rattle.lines.specs.Lines.{lines};
ghost use Rattle.lines.specs.LineEnds.{LineEnds};
ghost use Rattle.lines.specs.OnLine.{values_on};
ghost use Rattle.reasons.specs.Refusals.{refusal};

use memchr::memchr;
use reasons::{Reason, Refusal};
use ring::{BYTES, Ring};
use std::marker::Model;
use text::Field;

// The end of a text's first line: behind its LF, or at the text's end where it has none.
#[tactic(auto, using(crate::proofs::LineSteps::line_ends))]
fn line_end(text: &[u8]) -> usize
    ensures { LineEnds text.now 0 result }
{
    match memchr(b'\n', text) {
        Some(k) => k + 1,
        None => text.len(),
    }
}

/// A line of a text, with its LF where it has one; of at most 32,768 bytes.
#[derive(Drop)]
pub struct Line<'a> {
    text: &'a [u8],
}

// A caller sees its bytes.
impl<'a> Model for Line<'a> {
    ghost use Rattle.std.specs.Prelude.{ℕ, List, ◌≤◌, length};
    ghost use Rattle.ring.specs.Limits.{desk};

    ghost Value = { List ℕ };

    ghost view = { λ l. l.text.now };

    ghost invariant = { λ l. length l.text.now ≤ desk.bytes };
}

impl<'a> Line<'a> {
    /// Its bytes.
    pub fn bytes(&self) -> &'a [u8]
        ensures is { result.now ≡ self.now }
        ensures short { length self.now ≤ desk.bytes }
    {
        self.text
    }

    /// Its values by a shape, as the line with this number: one for each field, of a letter 0; or its refusal, the byte of which is the first faulty one.
    #[tactic(auto, unfolding(crate::specs::OnLine::values_on))]
    pub fn values<const N: usize>(
        &self,
        number: u32,
        shape: &[Field; N],
    ) -> Result<[u32; N], Refusal>
        ensures { result ≡ values_on number (read_line desk.digits shape.now self.now) }
    {
        self.read(shape)
            .map_err(|place| Refusal::misshapen(number, place))
    }

    /// The same where it may yet be a line of another shape, so that no refusal is due: the place of the first faulty byte is answered, counted from 0.
    pub fn read<const N: usize>(&self, shape: &[Field; N]) -> Result<[u32; N], usize>
        ensures is { result ≡ read_line desk.digits shape.now self.now }
        ensures place { IfErr result (λ place. place ≤ desk.bytes) }
    {
        text::read_line(self.text, shape)
    }

    /// The ring that it says as an R line, of either family, as the line with this number; or its refusal, the byte of which is the first faulty one.
    #[tactic(auto, unfolding(crate::specs::OnLine::values_on))]
    pub fn ring(&self, number: u32) -> Result<Ring, Refusal>
        ensures { result ≡ values_on number (read_ring desk.marks desk.digits self.now) }
    {
        self.read_ring()
            .map_err(|place| Refusal::misshapen(number, place))
    }

    // The same, with the place of the first faulty byte where no refusal is made of it yet.
    fn read_ring(&self) -> Result<Ring, usize>
        ensures is { result ≡ read_ring desk.marks desk.digits self.now }
        ensures place { IfErr result (λ place. place ≤ desk.bytes) }
    {
        text::read_ring(self.text)
    }
}

/// The lines of a text that are left to be read.
#[derive(Drop)]
pub struct Lines<'a> {
    rest: &'a [u8],
}

// A caller sees the list of the lines.
impl<'a> Model for Lines<'a> {
    ghost use Rattle.std.specs.Prelude.{ℕ, List, ◌≤◌, length};
    ghost use Rattle.ring.specs.Limits.{desk};
    ghost use Rattle.lines.specs.Lines.{lines};

    ghost Value = { List (List ℕ) };

    ghost view = { λ l. lines l.rest.now };

    ghost invariant = { λ l. length l.rest.now ≤ desk.bytes };
}

impl<'a> Lines<'a> {
    /// The lines of a text; refused with 1 where it has more than 32,768 bytes.
    pub fn of(text: &'a [u8]) -> Result<Self, Refusal>
        ensures read { IfOk result (λ l. (l ≡ lines text.now) × (length text.now ≤ desk.bytes)) }
        ensures refused { IfErr result (λ r. (r ≡ refusal Reason.TooLong 0 0)
            × (desk.bytes < length text.now)) }
    {
        if BYTES < text.len() {
            return Err(Refusal::whole(Reason::TooLong));
        }
        Ok(Lines { rest: text })
    }

    /// The next line, where one is left.
    pub fn next_line(&mut self) -> Option<Line<'a>>
        ensures { MatchOption result ((self.old ≡ []) × (self.new ≡ []))
            (λ line. self.old ≡ line ∷ self.new) }
    {
        let text = self.rest;
        if text.is_empty() {
            return None;
        }
        let end = line_end(text);
        self.rest = &text[end..];
        Some(Line { text: &text[..end] })
    }

    /// The line with this number, which is due; or, where no line is left, that it is misshapen at its first byte.
    pub fn due(&mut self, number: u32) -> Result<Line<'a>, Refusal>
        ensures read { IfOk result (λ line. self.old ≡ line ∷ self.new) }
        ensures missing { IfErr result (λ r. (r ≡ refusal Reason.Misshapen number 1)
            × (self.old ≡ [])) }
        ensures none_left { IfErr result (λ _. self.new ≡ []) }
    {
        self.next_line().ok_or(Refusal::misshapen(number, 0))
    }

    /// That no line is left; or that the next one, which has this number, is left over, and so
    /// misshapen at its first byte. The lines behind it are then left.
    pub fn end(&mut self, number: u32) -> Result<(), Refusal>
        ensures read { IfOk result (λ _. self.old ≡ []) }
        ensures left_over { IfErr result (λ r. (r ≡ refusal Reason.Misshapen number 1)
            × (self.old ≡ [] → ⊥)) }
        ensures rest { self.new ≡ drop 1 self.old }
    {
        match self.next_line() {
            None => Ok(()),
            Some(_) => Err(Refusal::misshapen(number, 0)),
        }
    }
}
