//! What is true of the written site. The laws have no code: each is proved for the definitions.

mod fitting;
mod metering;
mod numbering;
mod paying;
mod pointing;
mod selling;
mod shifts;
mod signing;
mod stepping;
mod testing;

ghost use Rattle.written_site.specs.Bridge.{AreLegalHistoriesRuns};
ghost use Rattle.written_site.specs.FigureSteps.{DoFiguresFit, DoFiguresMove};
ghost use Rattle.written_site.specs.Holders.{IsHeldByOne, AreUnendedTakes, AreBooksHeldByOne};
ghost use Rattle.written_site.specs.SiteChecks.{PassesEachCheck};
ghost use Rattle.written_site.specs.Sound.{StaysSound};
ghost use Rattle.written_site.specs.SoundRuns.{RunsStaySound};
ghost use Rattle.written_site.specs.SoundSteps.{DoVolumesAddUp, FindsRoom};

pub use fitting::every_figure_fits;
pub use metering::{meters_by_rows, products_add_up, volumes_are_conserved};
pub use numbering::sales_are_numbered;
pub use paying::{cleared_once, locked_by_one};
pub use pointing::points_are_their_own;
pub use selling::{priced_at_start, sales_are_kept};
pub use shifts::{clears_are_counted, draws_are_counted, volumes_cleared_are_counted};
pub use signing::{shift_by_rows, signed_on_by_rows};
pub use stepping::{clears_are_told, refusals_leave_the_site};
pub use testing::tests_are_apart;

/// An event that isn't refused has passed each of the checks.
pub fn passes_each_check()
    ensures { PassesEachCheck }
{}

/// A legal history is what its events make: its rows, its replies and its last site are theirs.
/// What a list of events makes is a legal history of exactly these events.
pub fn legal_histories_are_runs()
    ensures { AreLegalHistoriesRuns }
{}

/// For every list of events from the opening site of any configuration: if two different tills take
/// a fuelling point, one after the other, the first one's hold ends in between. A take is an
/// accepted Assign, Release, Prepay or TestRelease. An end is an accepted Unassign, the dispenser
/// going Offline, an answer that says that the release is taken back or the fuelling over, or the
/// holder's sign-off while the point is closed, idle or calling.
pub fn held_by_one()
    ensures { IsHeldByOne }
{}

/// The holds after such a list of events are exactly the takes without a later end.
pub fn holds_are_unended_takes()
    ensures { AreUnendedTakes }
{}

/// The laws of `held_by_one` and of `holds_are_unended_takes` hold for the rows of every legal
/// history, such as a book keeps.
pub fn books_held_by_one()
    ensures { AreBooksHeldByOne }
{}

/// The opening site of each fit configuration is sound, and each event leaves a sound site sound.
/// In a sound site no point number is used twice; each point is whole, and held if it is released;
/// the volume of a fuelling is the growth of its meter; a point that is released for a sale has
/// room and a number for it; prices, readings, shifts and sales are in range; the locker of a sale
/// is signed on, and no sale is cleared in a shift to come; and however the products are weighed,
/// what the meters have counted is in the fuellings in progress, in sales and in draws.
pub fn stays_sound()
    ensures { StaysSound }
{}

/// From the opening site of each fit configuration, every list of events whose readings are in
/// range leads to a sound site, whether they are accepted or refused.
pub fn runs_stay_sound()
    ensures { RunsStaySound }
{}

/// At a sound site, what the meters of a product have counted is in the fuellings in progress, in
/// payable, locked or cleared sales, and in draws, and fits in 64 bits. What flows in an event is
/// metered and is in the fuelling; what is sold or drawn leaves the fuelling, and nothing else
/// moves. A lock, an unlock and a clear move the volume of their transaction from one status to
/// another.
pub fn volumes_add_up()
    ensures { DoVolumesAddUp }
{}

/// At a sound site, what flows fits in its fuelling. If a point sells, the sale is what the site
/// reads of the fuelling: its nozzle, its volume and the price that it took. Then fewer of the
/// point's sales are unpaid than may be, the open shift has a number left for the sale, and the
/// sums fit in 64 bits with it. The sums fit with a draw too.
pub fn finds_room()
    ensures { FindsRoom }
{}

/// A clear counts once, in the open shift: for its till, with the cents of its sale, and for the
/// sale's product, with its millilitres and its cents. No other event changes what was cleared in a
/// shift or in all shifts. A draw counts for its product in the open shift, and nothing else
/// changes what was drawn. A shift that isn't open yet is empty.
pub fn figures_move()
    ensures { DoFiguresMove }
{}

/// At a sound site every figure of a shift fits in 64 bits: of a till, of a product, and the cents
/// of all tills together. The clears and cents in all shifts fit too, of a till and of all tills
/// together. What tills cleared also fits with one more clear, of a sale that isn't cleared.
pub fn figures_fit()
    ensures { DoFiguresFit }
{}
