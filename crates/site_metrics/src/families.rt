//! Families of samples, as OpenMetrics writes them.

ghost use Rattle.std.specs.Prelude.{◌≡◌, ◌++◌, OnOk, string_bytes};
ghost use Rattle.site_metrics.specs.Families.{gauge, head, numbered, sample, seconds};
ghost use Rattle.site_metrics.specs.Metrics.{connected_line, end_line, kinds_lines, peers_lines};
ghost use Rattle.site_metrics.specs.Metrics.{rows_lines};
ghost use Rattle.site_metrics.specs.Metrics.{sessions_lines, shifts_lines, state_line};
ghost use Rattle.site_metrics.specs.Metrics.{unpaid_lines};

use std::alloc::AllocError;

/// Appends a family of one sample.
pub(crate) fn put_gauge(
    text: &mut String,
    name: &str,
    help: &str,
    value: u128,
) -> Result<(), AllocError>
    ensures { OnOk result
        (string_bytes text.new ≡ string_bytes text.old ++ gauge name.now help.now value) }
{
    put_head(text, name, "gauge", help)?;
    put_sample(text, name, "", value)
}

/// Appends the head of a family.
#[tactic(auto, unfolding(crate::specs::Families::head))]
pub(crate) fn put_head(
    text: &mut String,
    name: &str,
    kind: &str,
    help: &str,
) -> Result<(), AllocError>
    ensures { OnOk result
        (string_bytes text.new ≡ string_bytes text.old ++ head name.now kind.now help.now) }
{
    write!(text, "# TYPE {name} {kind}\n# HELP {name} {help}\n")
}

/// Appends a sample with these labels.
#[tactic(auto, unfolding(crate::specs::Families::sample))]
pub(crate) fn put_sample(
    text: &mut String,
    name: &str,
    labels: &str,
    value: u128,
) -> Result<(), AllocError>
    ensures { OnOk result
        (string_bytes text.new ≡ string_bytes text.old ++ sample name.now labels.now value) }
{
    write!(text, "{name}{labels} {value}\n")
}

/// Appends a sample that is a time, of so many microseconds.
#[tactic(auto, unfolding(crate::specs::Families::seconds))]
pub(crate) fn put_seconds(
    text: &mut String,
    name: &str,
    microseconds: u128,
) -> Result<(), AllocError>
    ensures { OnOk result
        (string_bytes text.new ≡ string_bytes text.old ++ seconds name.now microseconds) }
{
    write!(text, "{name} {microseconds}e-6\n")
}

/// Appends a name, and a number behind it.
#[tactic(auto, unfolding(crate::specs::Families::numbered))]
pub(crate) fn put_numbered(text: &mut String, name: &str, number: u8) -> Result<(), AllocError>
    ensures { OnOk result
        (string_bytes text.new ≡ string_bytes text.old ++ numbered name.now number) }
{
    write!(text, "{name}{number}")
}

/// Appends that so many points are in the state of this name.
pub(crate) fn put_state_line(text: &mut String, word: &str, count: u128) -> Result<(), AllocError>
    ensures { OnOk result
        (string_bytes text.new ≡ string_bytes text.old ++ state_line word.now count) }
{
    text.push_str("witsomar_points{state=\"")?;
    put_sample(text, word, "\"}", count)
}

/// Appends the end of the text.
#[tactic(auto, unfolding(crate::specs::Metrics::end_line))]
pub(crate) fn put_end(text: &mut String) -> Result<(), AllocError>
    ensures { OnOk result (string_bytes text.new ≡ string_bytes text.old ++ end_line) }
{
    text.push_str("# EOF\n")
}

/// Appends so many rows, and so many but those of reads.
pub(crate) fn put_rows_lines(text: &mut String, rows: u128, kept: u128) -> Result<(), AllocError>
    ensures { OnOk result (string_bytes text.new ≡ string_bytes text.old ++ rows_lines rows kept) }
{
    put_gauge(
        text,
        "witsomar_rows",
        "Rows of the history, and reads since the start.",
        rows,
    )?;
    put_gauge(text, "witsomar_kept_rows", "Rows but those of reads.", kept)
}

/// Appends so many connections, and sessions of tills and of dispensers.
pub(crate) fn put_peers_lines(
    text: &mut String,
    connections: u128,
    tills: u128,
    dispensers: u128,
) -> Result<(), AllocError>
    ensures { OnOk result (string_bytes text.new
        ≡ string_bytes text.old ++ peers_lines connections tills dispensers) }
{
    let help = "Connections of peers.";
    put_gauge(text, "witsomar_connections", help, connections)?;
    put_sessions_lines(text, tills, dispensers)
}

/// Appends so many sessions of tills, and of dispensers.
fn put_sessions_lines(text: &mut String, tills: u128, dispensers: u128) -> Result<(), AllocError>
    ensures { OnOk result (string_bytes text.new
        ≡ string_bytes text.old ++ sessions_lines tills dispensers) }
{
    let help = "Sessions whose node is known.";
    put_head(text, "witsomar_sessions", "gauge", help)?;
    put_kinds_lines(text, tills, dispensers)
}

/// Appends the samples of these.
fn put_kinds_lines(text: &mut String, tills: u128, dispensers: u128) -> Result<(), AllocError>
    ensures { OnOk result (string_bytes text.new
        ≡ string_bytes text.old ++ kinds_lines tills dispensers) }
{
    let name = "witsomar_sessions";
    put_sample(text, name, "{kind=\"till\"}", tills)?;
    put_sample(text, name, "{kind=\"dispenser\"}", dispensers)
}

/// Appends that so many points have their dispenser connected.
pub(crate) fn put_connected_line(text: &mut String, count: u128) -> Result<(), AllocError>
    ensures { OnOk result
        (string_bytes text.new ≡ string_bytes text.old ++ connected_line count) }
{
    let help = "Fuelling points whose dispenser is connected.";
    put_gauge(text, "witsomar_points_connected", help, count)
}

/// Appends so many unpaid transactions, which come to so many cents.
pub(crate) fn put_unpaid_lines(
    text: &mut String,
    count: u128,
    cents: u128,
) -> Result<(), AllocError>
    ensures { OnOk result (string_bytes text.new
        ≡ string_bytes text.old ++ unpaid_lines count cents) }
{
    let help = "Unpaid transactions.";
    put_gauge(text, "witsomar_unpaid_transactions", help, count)?;
    let help = "Cents of the unpaid transactions.";
    put_gauge(text, "witsomar_unpaid_cents", help, cents)
}

/// Appends the open shift, and how many more can be opened.
pub(crate) fn put_shifts_lines(text: &mut String, shift: u128, left: u128) -> Result<(), AllocError>
    ensures { OnOk result (string_bytes text.new
        ≡ string_bytes text.old ++ shifts_lines shift left) }
{
    put_gauge(text, "witsomar_shift", "The open shift.", shift)?;
    let help = "Shifts that can still be opened.";
    put_gauge(text, "witsomar_shifts_left", help, left)
}
