//! How a program ends if its day has a fault: its text, and its exit status.

use counter_desk::SettleFault;
use day_base::DayFault;
use devices::WriteFault;
use std::test::Fail;

const NO_CONNECTION: &str = "fault 63\ncannot wait for connections, or make one: raise the limit \
                             of open files (ulimit -n)";

const DEAF: &str = "fault 63\ncannot listen on port 80: another program has it (see ss -ltnp), \
                    this user may not, or too few files may be open (ulimit -n)";

const NO_WORKER: &str = "fault 64\ncannot start a thread: raise the limit of address space \
                         (ulimit -v), or of processes (ulimit -u)";

#[test]
fn each_fault_has_its_text_and_status(rt: HostRuntime) -> Result<(), Fail> {
    let cases = [
        (DayFault::NoMemory, "fault 31", 4),
        (DayFault::Write(WriteFault::TurnLimit), "fault 59", 1),
        (DayFault::Write(WriteFault::Failed), "fault 62", 1),
        (DayFault::NoConnection, NO_CONNECTION, 1),
        (DayFault::Deaf(80), DEAF, 1),
        (DayFault::NoWorker, NO_WORKER, 1),
        (DayFault::Unsettled(0), "unsettled 60 place 0", 3),
        (DayFault::Unsettled(81), "unsettled 60 place 81", 3),
    ];
    for (fault, text, status) in cases {
        assert_eq!(rt; format!(in rt.alloc(); "{fault}")?.as_str(), text);
        assert_eq!(rt; fault.exit_status(), status, "{text}");
    }
    Ok(())
}

#[test]
fn a_desk_that_is_not_settled_tells_its_place(rt: HostRuntime) {
    let strange = DayFault::from(SettleFault::StrangeReceipt(7));
    assert_eq!(rt; strange, DayFault::Unsettled(7));
    assert_eq!(rt; DayFault::from(SettleFault::NoMemory), DayFault::NoMemory);
}
