//! The meters, by the rows of a history.

ghost use Rattle.written_site.specs.MeterLaws.{AreMetersRead};
ghost use Rattle.written_site.specs.RowWords.{OfEvents, OfBooks};
ghost use Rattle.written_site.specs.VolumeLaws.{AreVolumesConserved, DoProductsAddUp};

/// After every list of events from the opening site of any configuration: each nozzle's meter began
/// with the reading of its last accepted ReplaceMeter, or if there is none with the configured one.
/// It reads its last accepted Lift, Flow or HangUp since then, or if there is none what it began
/// with. It was replaced as often as rows replaced it, and its earlier meters counted what they
/// read when they were replaced, less what they began with. The same holds for every legal history.
pub fn meters_by_rows()
    ensures events { OfEvents AreMetersRead }
    ensures books { OfBooks AreMetersRead }
{}

/// After every list of events from the opening site of any configuration: what the rows tell of the
/// meters of a product's nozzles is what the site shows as metered. For each product number from 1
/// to 8 it is in the fuellings in progress, in payable, locked or cleared sales, and in draws. The
/// growths in the rows add up to what all meters have counted. The same holds for every legal
/// history.
pub fn volumes_are_conserved()
    ensures events { OfEvents AreVolumesConserved }
    ensures books { OfBooks AreVolumesConserved }
{}

/// For a configuration whose products and points are fit: at the site that any rows lead to, the
/// volumes metered of its products add up to what all its meters have counted.
pub fn products_add_up()
    ensures { DoProductsAddUp }
{}
