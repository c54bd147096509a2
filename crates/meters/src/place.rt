//! Where each nozzle's meter is among the others.

ghost use Rattle.std.specs.Prelude.{◌≡◌, ◌<◌, ◌≤◌};
ghost use Rattle.site_base.specs.declared.limits.TheConstants.{NOZZLE_CELLS, NOZZLES, POINTS};
ghost use Rattle.meters.specs.Places.{ArePlaces, nozzle_cell};

use crate::meter::Meter;
use site_base::{FpNo, NOZZLE_CELLS, NOZZLES, NozzleNo};

/// Returns the cell of nozzle n of point p among those of all nozzles that a site can have.
pub fn cell_of(p: FpNo, n: NozzleNo) -> usize
    ensures place { result ≡ nozzle_cell p n }
    ensures within { result < NOZZLE_CELLS }
    ensures point { (1 ≤ p) × (p ≤ POINTS) }
    ensures nozzle { (1 ≤ n) × (n ≤ NOZZLES) }
{
    (usize::from(p.get()) - 1) * usize::from(NOZZLES) + (usize::from(n.get()) - 1)
}

/// Returns the place of each meter, in its nozzle's cell.
pub fn places_of(meters: &[Meter]) -> [Option<usize>; NOZZLE_CELLS]
    ensures { ArePlaces meters.now result }
{
    let mut places = [None; NOZZLE_CELLS];
    for (place, meter) in meters.iter().enumerate() {
        let cell = meter.cell();
        if places[cell].is_none() {
            places[cell] = Some(place);
        }
    }
    places
}
