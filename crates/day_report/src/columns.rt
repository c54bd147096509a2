//! A table in columns, as people read it: titles at the left, figures at the right.

ghost use Rattle.std.specs.Prelude.{◌≡◌, ◌++◌, map, OnOk};
ghost use Rattle.day_report.specs.Columns.{at_right, line_text, longest, longest_figure};
ghost use Rattle.day_report.specs.Columns.{longest_title, spaces, table_text};

use std::alloc::AllocError;
use std::marker::Model;

/// A line of a table: its title, and its figures.
#[derive(Drop)]
pub struct Line {
    title: Vec<u8>,
    figures: Vec<Vec<u8>>,
}

impl Model for Line {
    ghost use Rattle.std.specs.Prelude.{map};
    ghost use Rattle.day_report.specs.Columns.{Line as LineFacts};

    ghost Value = { LineFacts };

    ghost view = { λ l. record {
      title = l.title.items;
      figures = map (λ f. f.items) l.figures.items;
    } };
}

impl Line {
    /// Returns a line with this title and these figures.
    pub fn new(title: Vec<u8>, figures: Vec<Vec<u8>>) -> Line
        ensures title { result.title ≡ title.items }
        ensures figures { result.figures ≡ map (λ f. f.items) figures.items }
    {
        Line { title, figures }
    }

    /// Appends the line, in columns of these widths.
    fn put(&self, first: usize, width: usize, text: &mut Vec<u8>) -> Result<(), AllocError>
        ensures { OnOk result
            (text.new.items ≡ text.old.items ++ line_text first width self.now) }
    {
        text.extend_from_slice(&self.title)?;
        put_spaces(first.saturating_sub(self.title.len()), text)?;
        for figure in &self.figures {
            put_right(figure, width, text)?;
        }
        text.push(b'\n')?;
        Ok(())
    }

    /// The length of the longest figure.
    fn longest_figure(&self) -> usize
        ensures { result ≡ longest self.now.figures }
    {
        let mut most = 0;
        for figure in &self.figures {
            most = most.max(figure.len());
        }
        most
    }
}

/// Appends the lines in columns. The first column is as wide as the longest title, and each other
/// column as wide as its longest figure.
pub fn put_table(lines: &[Line], text: &mut Vec<u8>) -> Result<(), AllocError>
    ensures { OnOk result (text.new.items ≡ text.old.items ++ table_text lines.now) }
{
    let (first, width) = (longest_title(lines), longest_figure(lines));
    for line in lines {
        line.put(first, width, text)?;
    }
    Ok(())
}

/// The length of the longest title.
fn longest_title(lines: &[Line]) -> usize
    ensures { result ≡ longest_title lines.now }
{
    let mut most = 0;
    for line in lines {
        most = most.max(line.title.len());
    }
    most
}

/// The length of the longest figure.
fn longest_figure(lines: &[Line]) -> usize
    ensures { result ≡ longest_figure lines.now }
{
    let mut most = 0;
    for line in lines {
        most = most.max(line.longest_figure());
    }
    most
}

/// Appends two spaces, and a figure at the right of its column.
fn put_right(figure: &[u8], width: usize, text: &mut Vec<u8>) -> Result<(), AllocError>
    ensures { OnOk result (text.new.items ≡ text.old.items ++ at_right width figure.now) }
{
    text.extend_from_slice(b"  ")?;
    put_spaces(width.saturating_sub(figure.len()), text)?;
    text.extend_from_slice(figure)?;
    Ok(())
}

/// Appends so many spaces.
fn put_spaces(count: usize, text: &mut Vec<u8>) -> Result<(), AllocError>
    ensures { OnOk result (text.new.items ≡ text.old.items ++ spaces count) }
{
    for _ in 0..count {
        text.push(b' ')?;
    }
    Ok(())
}
