//! Laws of the shifts' figures. They have no code: each is proved for the definitions that the
//! contracts of this crate cite.

ghost use Rattle.shift_ledger.specs.Laws.{AreFiguresSums, DoStay, HasEveryFigure, IsCounted};
ghost use Rattle.shift_ledger.specs.Laws.{IsDrawn, IsOpenedEmpty};

/// A clear changes the open shift: it raises its till's count by one and that till's cents by its
/// own, and its product's millilitres and cents by its own. The figures of every other till and
/// product stay, and so does what tests drew.
pub fn a_clear_counts()
    ensures { IsCounted }
{}

/// A draw raises the millilitres drawn of its product in the open shift by its own. Those of every
/// other product stay, and so does everything that was cleared.
pub fn a_draw_adjusts()
    ensures { IsDrawn }
{}

/// A close adds the open shift's row, unchanged, after the closed ones. A closed shift's row stays,
/// whatever is cleared, drawn and closed later.
pub fn closed_shifts_stay()
    ensures { DoStay }
{}

/// Shift 1, and each shift that a close opens, is empty: no till has a clear or cents there, and no
/// product has millilitres, cleared or drawn, or cents.
pub fn shifts_open_empty()
    ensures { IsOpenedEmpty }
{}

/// Each shift's row has a figure for every till and every product. This is true of the first shift,
/// and of the closed shifts and the open one after each clear, draw and close.
pub fn has_every_figure()
    ensures { HasEveryFigure }
{}

/// Whatever is cleared, drawn and closed from the first shift on: the clears of each till and their
/// cents in a shift, closed or open, and the millilitres of each product cleared, their cents and
/// the millilitres drawn, are the count and the sums of what was noted while the shift was open,
/// and of nothing else.
pub fn figures_are_sums()
    ensures { AreFiguresSums }
{}
