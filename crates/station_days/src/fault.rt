//! Turns a server's fault into one of the day.

ghost use Rattle.std.specs.Prelude.{◌≡◌};
ghost use Rattle.station_days.specs.StationDays.{ended_by};

use day_base::DayFault;
use devices::WriteFault;
use station_server::ServerFault;

/// Returns the fault with which a day ends if its server ends with this one.
pub fn to_day_fault(fault: ServerFault) -> DayFault
    ensures { result ≡ ended_by fault }
{
    match fault {
        ServerFault::NoMemory => DayFault::NoMemory,
        ServerFault::NoConnection => DayFault::NoConnection,
        ServerFault::Deaf(port) => DayFault::Deaf(port),
        ServerFault::NotStored => DayFault::Write(WriteFault::Failed),
    }
}
