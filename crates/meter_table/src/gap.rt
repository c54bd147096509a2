//! The gaps in what meters counted.

ghost use Rattle.std.specs.Prelude.{◌≡◌, ◌++◌, [], OnOk};
ghost use Rattle.std.specs.List.{cons_option};
ghost use Rattle.meter_table.specs.Gaps.{replacement_told};

use row_tally::{MeterReading, RowPlace};
use site_base::{Actor, Event, FpNo, Millilitres, NoMemory, NozzleNo, Row, TillNo};
use stamps::Stamp;

/// A meter that replaced another one.
#[derive(Clone, Copy, Debug, PartialEq, Eq)]
pub struct Replacement {
    /// Its row.
    pub place: RowPlace,
    /// The till that noted it.
    pub till: TillNo,
    /// The fuelling point.
    pub point: FpNo,
    /// Its nozzle.
    pub nozzle: NozzleNo,
    /// The old meter's last reading.
    pub old: Millilitres,
    /// The reading with which the new meter begins.
    pub new: Millilitres,
}

impl Replacement {
    /// A till's replacement, in the row of this number and time, of a meter that read old by one
    /// that begins with the reading that is told.
    fn of(
        row: u64,
        at: Option<Stamp>,
        till: TillNo,
        told: MeterReading,
        old: Millilitres,
    ) -> Replacement
        ensures { result ≡ record {
          place = record { row = row; at = at };
          till = till;
          point = told.point;
          nozzle = told.nozzle;
          old = old;
          new = told.reading;
        } }
    {
        Replacement {
            place: RowPlace { row, at },
            till,
            point: told.point,
            nozzle: told.nozzle,
            old,
            new: told.reading,
        }
    }
}

/// What a till's row replaced, whose meter read this before, has its line.
pub(crate) fn add_replaced(
    replaced: &mut Vec<Replacement>,
    place: &RowPlace,
    old: Millilitres,
    row: &Row,
) -> Result<(), NoMemory>
    ensures { OnOk result (replaced.new.items ≡ replaced.old.items
        ++ cons_option (replacement_told place.now old row.now.actor row.now.event) []) }
{
    let Actor::Till(till) = row.actor else {
        return Ok(());
    };
    let Event::ReplaceMeter(point, nozzle, new) = row.event else {
        return Ok(());
    };
    let told = MeterReading {
        point,
        nozzle,
        reading: new,
    };
    let at = place.at;
    replaced.push(Replacement::of(place.row, at, till, told, old))?;
    Ok(())
}
