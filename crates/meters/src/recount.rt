//! What the nozzles have metered, counted from their own rows.

ghost use Rattle.std.specs.Prelude.{◌≡◌};
ghost use Rattle.meters.specs.Nozzles.{AreNozzles};
ghost use Rattle.meters.specs.MeteredVolumes.{product_total};

use crate::meter::Meter;
use site_base::ProductNo;

/// Sums the millilitres that the nozzles of product q have metered, nozzle by nozzle.
pub fn recount(meters: &[Meter], q: ProductNo) -> u64
    requires { AreNozzles meters.now }
    ensures { result ≡ product_total q meters.now }
{
    let mut sum = 0;
    for meter in meters {
        if meter.product().get() == q.get() {
            sum += meter.metered_volume();
        }
    }
    sum
}
