//! The readings in events.

ghost use Rattle.std.specs.Prelude.{◌≡◌};
ghost use Rattle.row_tally.specs.Readings.{reading_told, replaced_told};

use site_base::{Event, FpNo, Millilitres, NozzleNo};

/// A reading of a nozzle's meter.
#[derive(Clone, Copy, Debug, PartialEq, Eq)]
pub struct MeterReading {
    /// The fuelling point.
    pub point: FpNo,
    /// Its nozzle.
    pub nozzle: NozzleNo,
    /// What the meter reads.
    pub reading: Millilitres,
}

impl MeterReading {
    /// Returns the reading that an event reports or notes, if it has one.
    pub fn told_by(event: &Event) -> Option<MeterReading>
        ensures { result ≡ reading_told event.now }
    {
        match event {
            Event::ReplaceMeter(point, nozzle, reading)
            | Event::Lift(point, nozzle, reading)
            | Event::Flow(point, nozzle, reading)
            | Event::HangUp(point, nozzle, reading) => Some(MeterReading {
                point: *point,
                nozzle: *nozzle,
                reading: *reading,
            }),
            _ => None,
        }
    }

    /// The reading with which an event begins a replaced meter, if it does.
    pub(crate) fn begun_by(event: &Event) -> Option<MeterReading>
        ensures { result ≡ replaced_told event.now }
    {
        match event {
            Event::ReplaceMeter(point, nozzle, reading) => Some(MeterReading {
                point: *point,
                nozzle: *nozzle,
                reading: *reading,
            }),
            _ => None,
        }
    }
}
