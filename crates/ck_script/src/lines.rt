//! The lines of a file in little room.
ghost use Rattle.std.specs.Prelude.{◌≡◌, ◌++◌, ◌∷◌, [], IfOk, OnOk, OnErr};
ghost use Rattle.ck_script.specs.Script.{numbered};

use crate::compact::CompactLine;
use crate::line::Numbered;
use crate::line_list::LineList;
use crate::rows::{Row, Rows};
use std::alloc::{AllocError, Global};
use std::marker::Model;

/// What the lines of a file say, each with its number: a list of `Numbered` that is kept in rows. An update over keys of at most
/// 64 bits takes 17 bytes and a query 9.
#[derive(Drop)]
pub struct Lines<L: CompactLine> {
    rows: Rows<L::Rest>,
}

impl<L: CompactLine> Model for Lines<L> {
    ghost use Rattle.ck_script.specs.Compact.{Listed, lines_in, AreKept};

    ghost Value = { Listed L };

    ghost view = { λ b. record { items = lines_in L.line_of b.rows } };

    ghost invariant = { λ b. AreKept L.is_kept b.rows };
}

impl<L: CompactLine> Lines<L> {
    /// No lines. They take no memory yet.
    pub fn new(alloc: Global) -> Lines<L>
        ensures { result.items ≡ [] }
    {
        Lines {
            rows: Rows::new(alloc),
        }
    }

    /// Lines that say this, numbered from 1 on: those of a file without empty lines and comments.
    pub fn numbered(alloc: Global, said: &[L]) -> Result<Lines<L>, AllocError>
        ensures { IfOk result (λ lines. lines.items ≡ numbered 1 said.now) }
    {
        let mut lines = Lines::new(alloc);
        for (i, what) in said.iter().enumerate() {
            lines.push(Numbered {
                line: i as u64 + 1,
                what: *what,
            })?;
        }
        Ok(lines)
    }

    /// Adds a line at the end. An `AllocError` leaves the lines as they were.
    pub fn push(&mut self, line: Numbered<L>) -> Result<(), AllocError>
        ensures ok { OnOk result (self.new.items ≡ self.old.items ++ line ∷ []) }
        ensures err { OnErr result (self.new.items ≡ self.old.items) }
    {
        let (kind, number, rest) = line.what.split();
        self.rows.push(Row {
            line: line.line,
            kind,
            number,
            rest,
        })
    }
}

impl<L: CompactLine> LineList<L> for Lines<L> {
    ghost items = { λ lines. lines.items };

    fn len(&self) -> usize {
        self.rows.len()
    }

    fn what(&self, i: usize) -> L {
        let (kind, number, rest) = self.rows.parts(i);
        L::join(kind, number, rest)
    }

    // It takes time in the logarithm of how often a line isn't the next after the line before.
    fn get(&self, i: usize) -> Numbered<L> {
        let (kind, number, rest) = self.rows.parts(i);
        Numbered {
            line: self.rows.line(i),
            what: L::join(kind, number, rest),
        }
    }
}
