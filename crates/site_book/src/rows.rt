//! Lists of rows.

ghost use Rattle.std.specs.Prelude.{◌≡◌, ◌+◌, ◌<◌, ◌≤◌, [], ◌∷◌, ◌++◌, length, slice_get, ◌==◌};
ghost use Rattle.std.specs.Prelude.{OnOk};
ghost use Rattle.std.specs.Prelude.{vec_capacity};
ghost use Rattle.site_book.specs.KeptRows.{figures_in_reply};

use crate::kept_row::{Figures, KeptRow, figures_in_reply};
use site_base::{NoMemory, Reply, Row};
use std::alloc::Global;
use std::marker::Model;

/// A list of rows, and the room that is reserved for more of them. A row takes 64 octets. A row
/// that answers with a product's figures takes 48 more, beside it.
#[derive(Drop)]
pub struct Rows {
    kept: Vec<KeptRow>,
    // The figures of the products that rows answer with, in their order.
    figures: Vec<Figures>,
    // For so many more rows there is room in both lists.
    room: usize,
}

impl Model for Rows {
    ghost use Rattle.std.specs.Prelude.{vec_len, vec_capacity};
    ghost use Rattle.site_book.specs.RowLists.{RowList};
    ghost use Rattle.site_book.specs.KeptRows.{rows_of_kept, AreRowsKept};

    ghost Value = { RowList };

    ghost view = { λ l.
        record { rows = rows_of_kept l.figures.items l.kept.items; room = l.room } };

    ghost invariant = { λ l. AreRowsKept l.kept.items l.figures.items l.room
        (vec_capacity l.kept) (vec_capacity l.figures) };
}

impl Rows {
    /// Returns no rows. It takes no memory.
    pub fn new(alloc: Global) -> Self
        ensures rows { result.rows ≡ [] }
    {
        Rows {
            kept: Vec::new(alloc),
            figures: Vec::new(alloc),
            room: 0,
        }
    }

    /// Drops all rows. The reserved room stays, and so does the memory of all rows.
    pub fn clear(&mut self)
        ensures rows { self.new.rows ≡ [] }
        ensures room { self.new.room ≡ self.old.room }
    {
        self.kept.clear();
        self.figures.clear();
    }

    /// Returns the number of rows.
    pub fn len(&self) -> usize
        ensures { result ≡ length self.now.rows }
    {
        self.kept.len()
    }

    /// Are there no rows?
    pub fn is_empty(&self) -> bool
        ensures { result ≡ (length self.now.rows == 0) }
    {
        self.kept.is_empty()
    }

    /// Returns the row at a place, counted from 0.
    pub fn get(&self, place: usize) -> Option<Row>
        ensures { result ≡ slice_get self.now.rows place }
    {
        match self.kept.get(place) {
            Some(kept) => Some(kept.row(&self.figures)),
            None => None,
        }
    }

    /// Makes room for this many more rows. The rows stay.
    pub fn reserve(&mut self, additional: usize) -> Result<(), NoMemory>
        ensures rows { self.new.rows ≡ self.old.rows }
        ensures room { OnOk result (additional ≤ self.new.room) }
        ensures kept { self.old.room ≤ self.new.room }
    {
        if additional > self.room {
            self.kept.reserve(additional)?;
            self.figures.reserve(additional)?;
            self.room = additional;
        }
        Ok(())
    }

    /// Adds a row at the end. Room for it has to be reserved.
    #[inline(always)]
    pub fn push(&mut self, row: &Row)
        requires { 0 < self.old.room }
        ensures rows { self.new.rows ≡ self.old.rows ++ row.now ∷ [] }
        ensures room { self.new.room + 1 ≡ self.old.room }
    {
        let at = self.figures.len();
        put_figures(&mut self.figures, &row.reply);
        self.kept.push_reserved(KeptRow::new(row, at));
        self.room -= 1;
    }
}

/// Adds the figures of the product that a reply answers with, if it does; room for them is
/// reserved.
fn put_figures(figures: &mut Vec<Figures>, reply: &Reply)
    requires { length figures.old.items < vec_capacity figures.old }
    ensures figures { figures.new.items ≡ figures.old.items ++ figures_in_reply reply.now }
    ensures capacity { vec_capacity figures.new ≡ vec_capacity figures.old }
{
    match figures_in_reply(reply) {
        Some(told) => figures.push_reserved(told),
        None => {}
    }
}
