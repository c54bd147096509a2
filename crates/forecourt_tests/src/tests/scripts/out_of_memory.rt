//! For runs in which one allocation fails: the call says so, and the same call then answers as
//! usual.

use demo::{DemoScript, ScriptFault, Section, Step, read_script};
use site_base::{Actor, Event, Millilitres, NozzleNo, PointState, TillNo};
use std::alloc::Global;
use std::process::Abort;

/// Till 1 signs on in the setup; a till's session of two messages, and a dispenser of three steps.
const SCRIPT: &[u8] = b"# a demo\n\
01 01 02 01 00 41 00 04 01 01 31 00\r\n\
\n\
till\n\
010102020041000401013100\n\
0101020200420004010132 00\n\
dispenser 1 1000000\n\
lift 1\n\
pump 1000000\n\
wait 9";

/// Reads a text, once more if an allocation failed.
fn read(rt: &(impl Abort + Eprint), alloc: Global, text: &[u8]) -> Result<DemoScript, ScriptFault> {
    match read_script(alloc, text) {
        Err(ScriptFault::NoMemory) => {
            let _ = rt.eprintln("an allocation failed");
            read_script(alloc, text)
        }
        answer => answer,
    }
}

/// The messages of till 2, with tokens 1 and 2.
fn assert_till(rt: &impl Abort, section: &Section) {
    let Section::Till(messages) = section else {
        panic!(rt; "no till");
    };
    assert_eq!(rt; messages.len(), 2);
    for (message, token) in messages.as_slice().iter().zip([1, 2]) {
        assert!(rt; message.from() == [2, 2] && message.token().get() == token);
    }
}

/// The dispenser of point 1, its looks, and its three steps.
fn assert_dispenser(rt: &impl Abort, section: &Section) {
    let Section::Dispenser {
        point,
        polls,
        script,
    } = section
    else {
        panic!(rt; "no dispenser");
    };
    assert!(rt; point.get() == 1 && *polls == 1_000_000);
    let steps = script.steps();
    assert_eq!(rt; steps.len(), 3);
    assert!(rt; steps[0] == Step::Lift(NozzleNo::new(1).expect(rt, "nozzle 1")));
    assert!(rt; steps[1] == Step::Pump(Millilitres::new(1_000_000).expect(rt, "a litre")));
    assert!(rt; steps[2] == Step::WaitFor(PointState::SuspendedFuelling));
}

#[test]
fn each_refused(rt: HostRuntime) {
    match read(&rt, rt.alloc(), SCRIPT) {
        Ok(demo) => {
            let till = Actor::Till(TillNo::new(1).expect(&rt, "till 1"));
            assert!(rt; demo.setup().len() == 1 && demo.setup()[0] == (till, Event::SignOn));
            assert_eq!(rt; demo.sections().len(), 2);
            assert_till(&rt, &demo.sections()[0]);
            assert_dispenser(&rt, &demo.sections()[1]);
        }
        Err(fault) => panic!(rt; "{fault}"),
    }
}

/// The fault of a script is the same, whatever allocation failed before.
#[test]
fn fault_told(rt: HostRuntime) {
    match read(&rt, rt.alloc(), b"010102010041000401013100\ntill\n0101\n") {
        Ok(_) => panic!(rt; "accepted"),
        Err(fault) => assert!(rt; fault == ScriptFault::Line(3), "{fault}"),
    }
}
