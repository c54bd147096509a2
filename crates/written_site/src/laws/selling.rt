//! What is sold: a sale has the price of its start and what flowed since then, and these figures
//! never change.

ghost use Rattle.written_site.specs.FuellingLaws.{ArePricedAtStart, AreSalesKept};
ghost use Rattle.written_site.specs.RowWords.{OfEvents, OfBooks};

/// For every list of events from the opening site of any configuration: a sale's price is that of
/// its product's last accepted SetPrice before the row that started its fuelling, or if there is
/// none the configured one. (A nozzle of a product without a price, which no site file configures,
/// sells at the least price.) A fuelling starts with a Lift that is answered Start, or with a
/// Release, Prepay or TestRelease that is accepted while the point calls. The same holds for every
/// legal history.
pub fn priced_at_start()
    ensures events { OfEvents ArePricedAtStart }
    ensures books { OfBooks ArePricedAtStart }
{}

/// For every list of events from the opening site of any configuration: after a row that sells, its
/// sale stays, and its figures never change. It has the millilitres that flowed since its fuelling
/// started, the product of the lifted nozzle, the price of its start, and their amount in cents. If
/// a Prepay released it, it also has the cents of that. A clear of it is answered with exactly its
/// cents. The same holds for every legal history.
pub fn sales_are_kept()
    ensures events { OfEvents AreSalesKept }
    ensures books { OfBooks AreSalesKept }
{}
