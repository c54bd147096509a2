//! The last rows of a history.

ghost use Rattle.std.specs.Prelude.{◌≡◌, ◌≤◌, ◌<◌, [], ◌++◌, IfOk, OnErr, OnOk, is_some, length};
ghost use Rattle.std.specs.Prelude.{option_copied, option_map, string_bytes};
ghost use Rattle.written_site.specs.SiteState.{opening};
ghost use Rattle.row_json.specs.declared.sizes.TheConstants.{GREATEST_ROW};
ghost use Rattle.row_json.specs.LastRows.{first_of, line_at, line_if, with_row};

use crate::row_reader::RowReader;
use crate::sizes::{GREATEST_ROW, LAST_ROWS};
use circular_buffer::HeapCircularBuffer;
use site_base::{NoMemory, Row, SiteConfig};
use stamps::Stamp;
use std::alloc::Global;
use std::marker::Model;

/// The lines of the last rows of a history, and the number of the next row. It reads the kept rows
/// from the opening on. Contracts see the lines as octets.
#[derive(Drop)]
pub struct LastRows {
    alloc: Global,
    reader: RowReader,
    lines: HeapCircularBuffer<String>,
    next: u64,
}

impl Model for LastRows {
    ghost use Rattle.std.specs.Prelude.{◌≡◌, ◌≤◌, length, map, string_bytes};
    ghost use Rattle.std.specs.Coded.{coded_ℕ, codes};
    ghost use Rattle.std.specs.Ordering.{nat_cmp};
    ghost use Rattle.std.specs.FinMap as finite;
    ghost use Rattle.std.specs.FinSet as set;
    ghost use Rattle.transaction_buffer.specs.Codes.{sales_code};
    ghost use Rattle.row_json.specs.declared.sizes.TheConstants.{GREATEST_ROW, LAST_ROWS};
    ghost use Rattle.row_json.specs.LastRows.{Last};

    ghost Value = { Last };

    ghost coded = { Prim.hlevel (
      codes,
      finite.code {R = nat_cmp} coded_ℕ coded_ℕ,
      set.code {R = nat_cmp} coded_ℕ,
      sales_code,
    ) };

    ghost view = { λ r. record {
      site = r.reader;
      lines = map string_bytes r.lines.items;
      next = r.next;
    } };

    ghost invariant = { λ r. (r.lines.capacity ≡ LAST_ROWS) × (length r.lines.items ≤ r.next)
        × (r.next ≤ GREATEST_ROW) };
}

impl LastRows {
    /// Returns no rows yet: the next row of the history is its first one.
    pub fn open(alloc: Global, config: &SiteConfig) -> Result<LastRows, NoMemory>
        ensures { IfOk result (λ last. last
            ≡ record { site = opening config.now; lines = []; next = 0 }) }
    {
        let reader = RowReader::open(alloc, config)?;
        let lines = HeapCircularBuffer::with_capacity(alloc, LAST_ROWS)?;
        Ok(LastRows {
            alloc,
            reader,
            lines,
            next: 0,
        })
    }

    /// Reads the next kept row, with its time. The oldest line may be dropped for it. After
    /// `NoMemory` no further row can be read.
    pub fn read(&mut self, time: Option<Stamp>, row: &Row) -> Result<(), NoMemory>
        requires { self.old.next < GREATEST_ROW }
        ensures read { OnOk result (self.new ≡ with_row time row.now self.old) }
        ensures lines { OnErr result (self.new.lines ≡ self.old.lines) }
        ensures next { OnErr result (self.new.next ≡ self.old.next) }
    {
        self.reader.pass(row)?;
        let line = self.reader.line(self.alloc, self.next, time, row)?;
        let _ = self.lines.push_back(line);
        self.next += 1;
        Ok(())
    }

    /// Lets go of the lines, and of their memory.
    pub fn forget_lines(&mut self)
        ensures lines { self.new.lines ≡ [] }
        ensures site { self.new.site ≡ self.old.site }
        ensures next { self.new.next ≡ self.old.next }
    {
        self.lines.clear();
    }

    /// Returns the number of the next row.
    pub fn next(&self) -> u64
        ensures next { result ≡ self.now.next }
        ensures few { length self.now.lines ≤ self.now.next }
        ensures range { self.now.next ≤ GREATEST_ROW }
    {
        let _ = self.lines.len();
        self.next
    }

    /// Returns the number of the row of the first line; that of the next row if there is no line.
    pub fn first(&self) -> u64
        ensures { result ≡ first_of self.now }
    {
        self.next - self.lines.len() as u64
    }

    /// Appends the line of the row of this number, if it is one of the last rows. Returns whether
    /// it is.
    pub fn put_line(&self, number: u64, text: &mut Vec<u8>) -> Result<bool, NoMemory>
        ensures there { IfOk result (λ there. there ≡ is_some (line_at self.now number)) }
        ensures line { OnOk result
            (text.new.items ≡ text.old.items ++ line_if (line_at self.now number)) }
        ensures err { OnErr result (text.new.items ≡ text.old.items) }
    {
        match self.line(number) {
            None => Ok(false),
            Some(line) => {
                text.extend_from_slice(line.as_bytes())?;
                Ok(true)
            }
        }
    }

    /// The line of the row of this number, if it is one of the last ones.
    fn line(&self, number: u64) -> Option<&String>
        ensures { option_map string_bytes (option_copied result) ≡ line_at self.now number }
    {
        if number < self.first() || number >= self.next() {
            return None;
        }
        let place = number - self.first();
        self.lines.get(place as usize)
    }
}
