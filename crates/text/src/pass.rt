//! A text goes to a buffer byte by byte; or it is only measured, by the same code.
ghost use Rattle.std.specs.Prelude.{ℕ, ◌<◌, List, [], ◌∷◌, length};
ghost use Rattle.text.specs.Written.{Passed};
ghost use Rattle.text.specs.Pass.{PassLaws, most, untouched, stored};
ghost use Rattle.text.specs.PassesLawful.{measures, writes};

/// What becomes of the bytes of a text.
pub trait Pass {
    /// Places below this are there.
    ghost room: { List ℕ → ℕ };

    /// The buffer behind a text that begins at a place.
    ghost after: { List ℕ → ℕ → List ℕ → List ℕ };

    /// One byte goes to a place, and the next place is answered.
    fn put(buffer: &mut [u8], at: usize, byte: u8) -> usize
        requires { at < room buffer.old }
        ensures { Passed after buffer.old at (byte ∷ []) buffer.new result };

    /// One text behind another is both.
    ghost laws: { PassLaws room after };
}

/// The text is measured, and the buffer stays as it is.
pub struct Measure;

impl Pass for Measure {
    ghost room = { most };

    ghost after = { untouched };

    fn put(_buffer: &mut [u8], at: usize, _byte: u8) -> usize {
        at + 1
    }

    ghost laws = { measures };
}

/// The text is written.
pub struct Write;

impl Pass for Write {
    ghost room = { length };

    ghost after = { stored };

    fn put(buffer: &mut [u8], at: usize, byte: u8) -> usize {
        buffer[at] = byte;
        at + 1
    }

    ghost laws = { writes };
}
