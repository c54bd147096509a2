//! What the feed's peers are sent, and what the page shows, of the rows that a history has at a
//! start.

ghost use Rattle.std.specs.Prelude.{IfErr};
ghost use Rattle.program_io.specs.Statuses.{IsFailed};

use history_folder::FolderWalk;
use peer_connections::FedRows;
use program_io::{FAULT, exit_no_memory, exit_with};
use row_feed::ChapterStarts;
use row_json::{GREATEST_ROW, LastRows};
use row_tally::RowTally;
use site_base::{NoMemory, Row, SiteConfig};
use site_book::SiteBook;
use stamps::Stamp;
use std::alloc::Global;
use std::process::ExitCode;
use std::rt::Files;

/// What the feed and the page have of the rows of a history so far.
#[derive(Drop)]
pub struct EarlierRows {
    /// The rows that the feed's peers are sent, if there is a feed.
    pub fed: Option<FedRows>,
    /// The tally that the page shows, if there is a page.
    pub tally: Option<RowTally>,
}

/// Reads the rows of a history so far: for the feed if there is one, and for the page.
#[derive(Drop)]
struct EarlierReader {
    /// So many rows were read.
    count: u64,
    fed: Option<FedReader>,
    tally: Option<RowTally>,
}

/// Reads rows for the feed: the last ones, and where chapters begin.
#[derive(Drop)]
struct FedReader {
    rows: LastRows,
    starts: ChapterStarts,
}

/// Reads the rows of the history in this folder for the feed and the page of a station that begins
/// with this book. Without a history there are no rows yet. On an error, prints it and returns the
/// exit status.
pub fn read_earlier<R: Files + Eprint + AllocGlobal>(
    rt: &R,
    history: Option<&str>,
    book: &SiteBook,
    has_feed: bool,
    has_page: bool,
) -> Result<EarlierRows, ExitCode>
    ensures { IfErr result IsFailed }
{
    let Some(folder) = history else {
        return match EarlierReader::open(rt.alloc(), book.config(), has_feed, has_page) {
            Ok(reader) => Ok(reader.end()),
            Err(NoMemory) => Err(exit_no_memory(rt)),
        };
    };
    if !has_feed && !has_page {
        return Ok(EarlierRows {
            fed: None,
            tally: None,
        });
    }
    read_history(rt, folder, book.kept_len(), has_feed, has_page)
}

/// What is told of the rows of the history in this folder, which has so many.
fn read_history<R: Files + Eprint + AllocGlobal>(
    rt: &R,
    folder: &str,
    count: u64,
    has_feed: bool,
    has_page: bool,
) -> Result<EarlierRows, ExitCode>
    ensures { IfErr result IsFailed }
{
    let mut walk = FolderWalk::open(rt, folder)?;
    let opened = EarlierReader::open(rt.alloc(), walk.book().config(), has_feed, has_page);
    let Ok(mut reader) = opened else {
        return Err(exit_no_memory(rt));
    };
    match read_rows(rt, folder, &mut walk, &mut reader) {
        Ok(()) => {}
        Err(status) => return Err(status),
    }
    if reader.count != count {
        return Err(exit_with(
            eprintln!(rt;
                "cannot read {folder}\n\
                 its rows changed while the station started: see that no other program writes \
                 there, and start again"
            ),
            FAULT,
        ));
    }
    Ok(reader.end())
}

/// Reads each row that is left of a walk, and notes with which a chapter begins.
fn read_rows<R: Files + Eprint + AllocGlobal>(
    rt: &R,
    folder: &str,
    walk: &mut FolderWalk,
    reader: &mut EarlierReader,
) -> Result<(), ExitCode>
    ensures { IfErr result IsFailed }
{
    for _ in 0..GREATEST_ROW {
        let begun = walk.end().chapters();
        let row = walk.next(rt, folder)?;
        if reader.begin_chapters(begun, walk.end().chapters()).is_err() {
            return Err(exit_no_memory(rt));
        }
        let Some(row) = row else {
            return Ok(());
        };
        match reader.read(walk.end().time(), &row) {
            Ok(()) => {}
            Err(NoMemory) => return Err(exit_no_memory(rt)),
        }
    }
    // No history has so many rows.
    Err(exit_no_memory(rt))
}

impl EarlierReader {
    /// A reader of the rows of this site, which has read none.
    fn open(
        alloc: Global,
        config: &SiteConfig,
        has_feed: bool,
        has_page: bool,
    ) -> Result<EarlierReader, NoMemory> {
        let mut reader = EarlierReader {
            count: 0,
            fed: None,
            tally: None,
        };
        if has_feed {
            reader.fed = Some(FedReader {
                rows: LastRows::open(alloc, config)?,
                starts: ChapterStarts::new(alloc),
            });
        }
        if has_page {
            reader.tally = Some(RowTally::open(alloc, config)?);
        }
        Ok(reader)
    }

    /// Each of the chapters behind the first so many begins with the next row.
    fn begin_chapters(&mut self, begun: u64, count: u64) -> Result<(), NoMemory> {
        let Some(fed) = &mut self.fed else {
            return Ok(());
        };
        for _ in begun..count {
            fed.starts.add(fed.rows.next())?;
        }
        Ok(())
    }

    /// Reads the next row, which has this time.
    fn read(&mut self, time: Option<Stamp>, row: &Row) -> Result<(), NoMemory> {
        if let Some(fed) = &mut self.fed {
            if fed.rows.next() >= GREATEST_ROW {
                return Err(NoMemory);
            }
            fed.rows.read(time, row)?;
        }
        if let Some(tally) = &mut self.tally {
            tally.read(&time, row)?;
        }
        self.count = self.count.saturating_add(1);
        Ok(())
    }

    /// What is told of the rows that were read.
    fn end(self) -> EarlierRows {
        EarlierRows {
            fed: fed_rows(self.fed),
            tally: self.tally,
        }
    }
}

/// What the feed's peers are told of the rows that were read, if there is a feed.
fn fed_rows(fed: Option<FedReader>) -> Option<FedRows> {
    let fed = fed?;
    Some(FedRows::new(fed.rows, fed.starts))
}
