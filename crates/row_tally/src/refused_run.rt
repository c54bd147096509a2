//! A run of refused readings.

ghost use Rattle.std.specs.Prelude.{◌≡◌};
ghost use Rattle.row_tally.specs.Runs.{is_of_nozzle, run_begun, run_longer, run_settled};

use crate::meter_reading::MeterReading;
use site_base::{FpNo, Millilitres, NozzleNo, Refusal};
use stamps::Stamp;

/// The place of a row in its day or history.
#[derive(Clone, Copy, Debug, PartialEq, Eq)]
pub struct RowPlace {
    /// Its number, counted from 0.
    pub row: u64,
    /// Its time, if it is known.
    pub at: Option<Stamp>,
}

/// Readings of one nozzle that were refused because of its meter, one after another. No reading of
/// the nozzle was accepted between them.
#[derive(Clone, Copy, Debug, PartialEq, Eq)]
pub struct RefusedRun {
    /// The row of the first reading.
    pub first: RowPlace,
    /// The number of the row of the last reading.
    pub last: u64,
    /// The fuelling point.
    pub point: FpNo,
    /// Its nozzle.
    pub nozzle: NozzleNo,
    /// Why the last reading was refused.
    pub refusal: Refusal,
    /// The reading that the site has of the meter.
    pub expected: Millilitres,
    /// The last reading that was refused.
    pub reported: Millilitres,
    /// The number of the row that accepted the next reading; None for an open run.
    pub settled: Option<u64>,
}

impl RefusedRun {
    /// A run that begins with this reading, where the meter reads what is expected.
    pub(crate) fn begin(
        place: &RowPlace,
        told: &MeterReading,
        expected: Millilitres,
        refusal: Refusal,
    ) -> RefusedRun
        ensures { result ≡ run_begun place.now told.now expected refusal }
    {
        RefusedRun {
            first: *place,
            last: place.row,
            point: told.point,
            nozzle: told.nozzle,
            refusal,
            expected,
            reported: told.reading,
            settled: None,
        }
    }

    /// Goes on with one more reading.
    pub(crate) fn go_on(&mut self, place: &RowPlace, told: &MeterReading, refusal: Refusal)
        ensures { self.new ≡ run_longer place.now told.now refusal self.old }
    {
        self.last = place.row;
        self.refusal = refusal;
        self.reported = told.reading;
    }

    /// The run, once this row has settled it.
    pub(crate) fn settled_by(&self, row: u64) -> RefusedRun
        ensures { result ≡ run_settled row self.now }
    {
        RefusedRun {
            settled: Some(row),
            ..*self
        }
    }

    /// Is it of this nozzle?
    pub(crate) fn is_of_nozzle(&self, point: FpNo, nozzle: NozzleNo) -> bool
        ensures { result ≡ is_of_nozzle point nozzle self.now }
    {
        self.point == point && self.nozzle == nozzle
    }
}
