//! What no clause says: that a peer is fed, if there is memory. Lines are those of docs/PAGE.md.

use forecourt_engines::known_site;
use row_feed::{ChapterStarts, Feed};
use row_json::{LAST_ROWS, LastRows};
use site_base::{Actor, Answer, Event, FpNo, NoMemory, Refusal, Reply, Row, TillNo};
use std::alloc::Global;

const FIRST: &str = "{\"actor\":\"t1\",\"at\":null,\"event\":\"SignOn\",\"reply\":\"Done\",\
                     \"row\":0}\n";

const SECOND: &str = "{\"actor\":\"t1\",\"at\":null,\"event\":\"Open 1\",\"point\":1,\
                      \"reply\":\"Done\",\"row\":1,\"state\":\"idle\"}\n";

const THIRD: &str = "{\"actor\":\"t1\",\"at\":null,\"event\":\"SignOn\",\
                     \"reply\":\"2 SignedOn\",\"row\":2}\n";

/// A row of till 1.
fn row(event: Event, reply: Reply) -> Row {
    Row {
        actor: Actor::Till(TillNo::new(1).unwrap()),
        event,
        reply,
    }
}

/// The rows of a history that begins so: till 1 signs on, opens point 1, and signs on once more.
fn last_rows(alloc: Global) -> Result<LastRows, NoMemory> {
    let config = known_site(alloc)?;
    let mut rows = LastRows::open(alloc, &config)?;
    let first = row(Event::SignOn, Ok(Answer::Done));
    rows.read(None, &first)?;
    let second = row(Event::Open(FpNo::new(1).unwrap()), Ok(Answer::Done));
    rows.read(None, &second)?;
    let third = row(Event::SignOn, Err(Refusal::SignedOn));
    rows.read(None, &third)?;
    Ok(rows)
}

/// What is made for a peer that says this line.
fn fed(alloc: Global, rows: &LastRows, line: &str) -> Result<Feed, NoMemory> {
    let mut feed = Feed::new(alloc);
    feed.hear(line.as_bytes(), rows.next())?;
    feed.make(rows, &ChapterStarts::new(alloc))?;
    Ok(feed)
}

#[test]
fn a_peer_is_fed_from_a_row_on(rt: HostRuntime) -> Result<(), NoMemory> {
    let alloc = rt.alloc();
    let rows = last_rows(alloc)?;
    let whole = format!(in alloc; "{SECOND}{THIRD}")?;
    let mut feed = fed(alloc, &rows, "from 1\n")?;
    assert!(rt; feed.pending() == whole.as_bytes(), "rows 1 and 2");
    feed.take(SECOND.len());
    assert!(rt; feed.pending() == THIRD.as_bytes(), "row 2");
    feed.take(THIRD.len());
    feed.make(&rows, &ChapterStarts::new(alloc))?;
    assert!(rt; feed.pending().is_empty(), "no row is left");
    feed.say_alive()?;
    assert!(rt;
        feed.pending() == "{\"alive\":3}\n".as_bytes(),
        "row 3 is next"
    );
    assert!(rt; !feed.is_over(), "it goes on");
    Ok(())
}

#[test]
fn all_rows_and_none(rt: HostRuntime) -> Result<(), NoMemory> {
    let alloc = rt.alloc();
    let rows = last_rows(alloc)?;
    let whole = format!(in alloc; "{FIRST}{SECOND}{THIRD}")?;
    let all = fed(alloc, &rows, "from 0\nmore\n")?;
    assert!(rt; all.pending() == whole.as_bytes(), "from 0");
    let none = fed(alloc, &rows, "from end\n")?;
    assert!(rt; none.pending().is_empty(), "from the end");
    let waits = fed(alloc, &rows, "from 0")?;
    assert!(rt; waits.pending().is_empty(), "without its line feed");
    Ok(())
}

#[test]
fn a_peer_is_told_what_is_wrong(rt: HostRuntime) -> Result<(), NoMemory> {
    let alloc = rt.alloc();
    let rows = last_rows(alloc)?;
    let mut ahead = fed(alloc, &rows, "from 4\n")?;
    let wanted = "{\"fault\":\"row 4 isn't there: row 3 is next\"}\n".as_bytes();
    assert!(rt; ahead.pending() == wanted, "ahead of the end");
    ahead.take(wanted.len());
    assert!(rt; ahead.is_over(), "it is over");
    let other = fed(alloc, &rows, "from 01\n")?;
    let wanted = "{\"fault\":\"a feed begins with a line: from N, or from end\"}\n".as_bytes();
    assert!(rt; other.pending() == wanted, "another line");
    Ok(())
}

#[test]
fn rows_make_way(rt: HostRuntime) -> Result<(), NoMemory> {
    let alloc = rt.alloc();
    let mut rows = last_rows(alloc)?;
    let again = row(Event::SignOn, Err(Refusal::SignedOn));
    for _ in 0..LAST_ROWS {
        if rows.next() < 100_000 {
            rows.read(None, &again)?;
        }
    }
    assert!(rt; rows.first() == 3, "the first rows have made way");
    let gone = fed(alloc, &rows, "from 2\n")?;
    let wanted = "{\"fault\":\"row 2 isn't in memory any more\"}\n".as_bytes();
    assert!(rt; gone.pending() == wanted, "without chapters");
    let mut starts = ChapterStarts::new(alloc);
    starts.add(0)?;
    starts.add(2)?;
    starts.add(9)?;
    let mut feed = Feed::new(alloc);
    feed.hear(b"from 2\n", rows.next())?;
    feed.make(&rows, &starts)?;
    let wanted = "{\"fault\":\"row 2 is in chapter 2\"}\n".as_bytes();
    assert!(rt; feed.pending() == wanted, "in its chapter");
    Ok(())
}
