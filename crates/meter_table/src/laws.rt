//! The laws of the table's lines. Each is a function whose contract is the law.

ghost use Rattle.meter_table.specs.Laws.{EachLineAddsUp, EachRefusedReadingHasARun};
ghost use Rattle.meter_table.specs.Laws.{EachReplacementHasALine, EachWholeLineAddsUp, NoGapIsLost};

/// Each nozzle's figures for some rows add up, whatever rows came before. So the figures of a shift
/// add up.
pub fn each_line_adds_up()
    ensures { EachLineAddsUp }
{}

/// Each nozzle's figures for a whole history add up.
pub fn each_whole_line_adds_up()
    ensures { EachWholeLineAddsUp }
{}

/// Each accepted replacement of a meter has its line among the gaps, with both readings.
pub fn each_replacement_has_a_line()
    ensures { EachReplacementHasALine }
{}

/// Each reading that is refused because of its meter is in an open run of its nozzle.
pub fn each_refused_reading_has_a_run()
    ensures { EachRefusedReadingHasARun }
{}

/// A row removes no line from the gaps: an open run stays open, or the row settles it.
pub fn no_gap_is_lost()
    ensures { NoGapIsLost }
{}
