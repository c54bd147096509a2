//! What a running station counts beside its book.

ghost use Rattle.std.specs.Prelude.{◌≡◌, ◌++◌, OnOk, string_bytes};
ghost use Rattle.site_metrics.specs.Counts.{chapters_line, chapters_text, counts_text};
ghost use Rattle.site_metrics.specs.Counts.{feeds_line, longest_text, seal_line, seal_text};
ghost use Rattle.site_metrics.specs.Counts.{stores_lines, stores_text, times_lines, times_text};
ghost use Rattle.site_metrics.specs.Counts.{version_line, version_text};

use crate::families::{put_gauge, put_head, put_sample, put_seconds};
use std::alloc::AllocError;

/// The version of the program.
pub const VERSION: &str = "0.1.0";

/// What a running station counts beside its book.
#[derive(Clone, Copy, Debug, PartialEq, Eq)]
pub struct StationCounts {
    /// The number of its peers' connections.
    pub connections: usize,
    /// The number of its feed's peers.
    pub feeds: usize,
    /// The number of its history's chapters, if it has one.
    pub chapters: Option<u64>,
    /// The seconds since a round ended with a seal, if one has since the start.
    pub seal_seconds: Option<u64>,
    /// How long rows took to be stored.
    pub stores: StoreTimes,
}

/// How often rows were stored, and how long that took.
#[derive(Clone, Copy, Debug, PartialEq, Eq)]
pub struct StoreTimes {
    /// How often.
    pub count: u64,
    /// The sum of their durations, in microseconds.
    pub sum: u64,
    /// The longest duration, in microseconds.
    pub greatest: u64,
}

impl StoreTimes {
    /// Returns the times of a station that has stored nothing yet.
    pub fn new() -> StoreTimes
        ensures { result ≡ record { count = 0; sum = 0; greatest = 0 } }
    {
        StoreTimes {
            count: 0,
            sum: 0,
            greatest: 0,
        }
    }

    /// Notes one more store, which took this many microseconds.
    pub fn note(&mut self, microseconds: u64) {
        self.count = self.count.saturating_add(1);
        self.sum = self.sum.saturating_add(microseconds);
        if microseconds > self.greatest {
            self.greatest = microseconds;
        }
    }
}

/// Appends what a station counts, but for its connections, and its version.
pub(crate) fn put_counts(text: &mut String, counts: &StationCounts) -> Result<(), AllocError>
    ensures { OnOk result
        (string_bytes text.new ≡ string_bytes text.old ++ counts_text counts.now) }
{
    put_feeds(text, counts.feeds)?;
    put_chapters(text, counts.chapters)?;
    put_seal(text, counts.seal_seconds)?;
    put_stores(text, &counts.stores)?;
    put_version(text)
}

/// Appends how many peers the feed has.
fn put_feeds(text: &mut String, feeds: usize) -> Result<(), AllocError>
    ensures { OnOk result (string_bytes text.new ≡ string_bytes text.old ++ feeds_line feeds) }
{
    put_feeds_line(text, feeds as u128)
}

/// Appends the same.
fn put_feeds_line(text: &mut String, count: u128) -> Result<(), AllocError>
    ensures { OnOk result (string_bytes text.new ≡ string_bytes text.old ++ feeds_line count) }
{
    put_gauge(text, "witsomar_feeds", "Peers of the feed.", count)
}

/// Appends how many chapters the history has, if there is one.
fn put_chapters(text: &mut String, chapters: Option<u64>) -> Result<(), AllocError>
    ensures { OnOk result
        (string_bytes text.new ≡ string_bytes text.old ++ chapters_text chapters) }
{
    match chapters {
        Some(count) => put_chapters_line(text, u128::from(count)),
        None => Ok(()),
    }
}

/// Appends that the history has so many chapters.
fn put_chapters_line(text: &mut String, count: u128) -> Result<(), AllocError>
    ensures { OnOk result (string_bytes text.new ≡ string_bytes text.old ++ chapters_line count) }
{
    put_gauge(text, "witsomar_chapters", "Chapters of the history.", count)
}

/// Appends the seconds since the last seal, if there is one.
fn put_seal(text: &mut String, seconds: Option<u64>) -> Result<(), AllocError>
    ensures { OnOk result (string_bytes text.new ≡ string_bytes text.old ++ seal_text seconds) }
{
    match seconds {
        Some(seconds) => put_seal_line(text, u128::from(seconds)),
        None => Ok(()),
    }
}

/// Appends that so many seconds have passed since the last seal.
fn put_seal_line(text: &mut String, seconds: u128) -> Result<(), AllocError>
    ensures { OnOk result (string_bytes text.new ≡ string_bytes text.old ++ seal_line seconds) }
{
    let help = "Seconds since the last seal.";
    put_gauge(text, "witsomar_seal_age_seconds", help, seconds)
}

/// Appends how long rows took to be stored.
fn put_stores(text: &mut String, stores: &StoreTimes) -> Result<(), AllocError>
    ensures { OnOk result
        (string_bytes text.new ≡ string_bytes text.old ++ stores_text stores.now) }
{
    let (count, sum) = (u128::from(stores.count), u128::from(stores.sum));
    put_stores_lines(text, count, sum, u128::from(stores.greatest))
}

/// Appends that rows were stored so often, and how many microseconds that took, all together and at
/// most.
fn put_stores_lines(
    text: &mut String,
    count: u128,
    sum: u128,
    greatest: u128,
) -> Result<(), AllocError>
    ensures { OnOk result
        (string_bytes text.new ≡ string_bytes text.old ++ stores_lines count sum greatest) }
{
    put_times(text, count, sum)?;
    put_longest(text, greatest)
}

/// Appends how often, and how long all together.
fn put_times(text: &mut String, count: u128, sum: u128) -> Result<(), AllocError>
    ensures { OnOk result
        (string_bytes text.new ≡ string_bytes text.old ++ times_text count sum) }
{
    let help = "Seconds in which rows were written and flushed.";
    put_head(text, "witsomar_flush_seconds", "summary", help)?;
    put_times_lines(text, count, sum)
}

/// Appends the samples of these.
fn put_times_lines(text: &mut String, count: u128, sum: u128) -> Result<(), AllocError>
    ensures { OnOk result
        (string_bytes text.new ≡ string_bytes text.old ++ times_lines count sum) }
{
    put_seconds(text, "witsomar_flush_seconds_sum", sum)?;
    put_sample(text, "witsomar_flush_seconds_count", "", count)
}

/// Appends the longest.
fn put_longest(text: &mut String, greatest: u128) -> Result<(), AllocError>
    ensures { OnOk result (string_bytes text.new ≡ string_bytes text.old ++ longest_text greatest) }
{
    put_head(
        text,
        "witsomar_flush_seconds_max",
        "gauge",
        "The longest of them.",
    )?;
    put_seconds(text, "witsomar_flush_seconds_max", greatest)
}

/// Appends the version of the program.
fn put_version(text: &mut String) -> Result<(), AllocError>
    ensures { OnOk result (string_bytes text.new ≡ string_bytes text.old ++ version_text) }
{
    put_head(text, "witsomar_build_info", "gauge", "The program.")?;
    put_version_line(text)
}

/// Appends its sample.
fn put_version_line(text: &mut String) -> Result<(), AllocError>
    ensures { OnOk result (string_bytes text.new ≡ string_bytes text.old ++ version_line) }
{
    text.push_str("witsomar_build_info{version=\"")?;
    put_sample(text, VERSION, "\"}", 1)
}
