//! The lines of a matrix: all are read before any entry is compared with its mirror entry, so they are kept in a square.
ghost use Rattle.std.specs.Prelude.{◌≡◌, [], ◌-◌, ◌≤◌, length, get_or, set, take};
ghost use Rattle.ring.specs.Limits.{desk};
ghost use Rattle.ring.specs.Lists.{Each};
ghost use Rattle.matrix.specs.Matrix.{entry, IsSquare, Node};
ghost use Rattle.matrix.specs.Read.{square_byte};

use crate::numbers::{Numbers, byte_of};
use ring::LINKS;
use std::marker::Model;

/// Puts the numbers of entries, at most as many as a line has, into a list that holds none. It is lent, so that it is filled where it stays.
fn put_numbers(entries: &[u16], numbers: &mut Numbers)
    requires few { length entries.now ≤ desk.nodes }
    requires none { numbers.old.items ≡ [] }
    ensures { numbers.new.items ≡ entries.now }
{
    for entry in entries {
        numbers.push(u32::from(*entry));
    }
}

/// The numbers as entries of a square, and others behind them.
fn entries_of(numbers: &Numbers) -> [u16; LINKS]
    requires { Each (λ v. v ≤ desk.amount) numbers.now.items }
    ensures { take (length numbers.now.items) result ≡ numbers.now.items }
{
    let mut entries = [0; LINKS];
    for (k, number) in numbers.iter().enumerate() {
        entries[k] = *number as u16;
    }
    entries
}

/// The entries of a matrix, each of which is an amount. Some 8 KB: make it where it stays, and lend it.
#[derive(Drop)]
pub(crate) struct Square {
    nodes: u32,
    entries: [[u16; LINKS]; LINKS],
}

// A caller sees its lines, as many as there are nodes.
impl Model for Square {
    ghost use Rattle.std.specs.Prelude.{ℕ, List};

    ghost Value = { List (List ℕ) };

    ghost use Rattle.matrix.specs.Square.{lines_in, Sized};

    ghost view = { lines_in };

    ghost invariant = { Sized };
}

impl Square {
    /// A square of so many nodes.
    pub(crate) fn new(nodes: u32) -> Self
        requires { nodes ≤ desk.nodes }
        ensures { length result ≡ nodes }
    {
        Square {
            nodes,
            entries: [[0; LINKS]; LINKS],
        }
    }

    /// How many nodes there are.
    pub(crate) fn nodes(&self) -> u32
        ensures is { result ≡ length self.now }
        ensures few { result ≤ desk.nodes }
    {
        self.nodes
    }

    /// The entry i, j, both counted from 1.
    pub(crate) fn get(&self, i: u32, j: u32) -> u32
        requires line { Node (length self.now) i }
        requires place { Node (length self.now) j }
        ensures { result ≡ entry self.now i j }
    {
        // opens the value, so that its invariant is known: how many entries there are
        let _ = &self.nodes;
        u32::from(self.entries[i as usize - 1][j as usize - 1])
    }

    /// The byte of line i where entry j starts, both counted from 1. It is asked only of a matrix that is refused.
    #[cold]
    pub(crate) fn byte_of(&self, i: u32, j: u32) -> u32
        requires line { Node (length self.now) i }
        requires place { Node (length self.now) j }
        ensures { result ≡ square_byte self.now i j }
    {
        // opens the value, so that its invariant is known: how many entries there are
        let _ = &self.nodes;
        let before = j as usize - 1;
        let mut numbers = Numbers::new();
        put_numbers(&self.entries[i as usize - 1][..before], &mut numbers);
        byte_of(&numbers, before)
    }

    /// Other numbers for line i, as many as there are nodes.
    pub(crate) fn put(&mut self, i: u32, numbers: &Numbers)
        requires line { Node (length self.old) i }
        requires width { length numbers.now.items ≡ length self.old }
        requires amounts { Each (λ v. v ≤ desk.amount) numbers.now.items }
        ensures { self.new ≡ set self.old (i - 1) numbers.now.items }
    {
        // opens the value, so that its invariant is known: how many entries there are
        let _ = &self.nodes;
        self.entries[i as usize - 1] = entries_of(numbers);
    }
}
