//! The messages of replies, by their octets: each answer, each refusal, and the numbers that come
//! in place of a reply.

use super::calls::octets;
use app_message::{Decoder, Fed, Message, encode};
use device_map::{refusal_of, reply_of};
use site_base::{
    Answer, Cents, Millilitres, Mills, NoMemory, NozzleNo, PointState, PointView, Preset,
    ProductNo, ProductView, Refusal, Reply, Seq, ShiftNo, SiteView, Status, TillNo,
    TransactionView,
};
use std::alloc::Global;
use std::process::Abort;
use std::test::Fail;

/// Till 1 releases point 3, token 5.
const RELEASE: &str = "01 01 02 01 00 45 00 04 01 23 3E 00";

/// How each Ack to it begins, up to its length.
const ACK: &str = "02 01 01 01 00 E5";

/// Till 1 reads something, token 5: up to the length.
const READ: &str = "01 01 02 01 00 05";

/// How the Answer begins.
const ANSWER: &str = "02 01 01 01 00 25";

/// The one message that these octets spell.
fn message(rt: &impl Abort, alloc: Global, text: &str) -> Result<Message, NoMemory> {
    let mut decoder = Decoder::new(alloc);
    let Fed { messages, fault } = decoder.feed(&octets(rt, alloc, text)?)?;
    assert!(rt; fault.is_none() && messages.len() == 1, "not one message");
    let mut messages = messages.into_vec();
    Ok(messages.pop().expect(rt, "a message"))
}

/// The reply to a request is told by these octets, in two parts.
fn tells(
    rt: &impl Abort,
    alloc: Global,
    request: &Message,
    reply: &Reply,
    parts: [&str; 2],
) -> Result<(), NoMemory> {
    let told = encode(alloc, &reply_of(alloc, request, reply)?)?;
    assert!(rt; told == join(rt, alloc, parts)?, "told otherwise");
    Ok(())
}

/// The octets of two texts.
fn join(rt: &impl Abort, alloc: Global, parts: [&str; 2]) -> Result<Vec<u8>, NoMemory> {
    let [first, second] = parts;
    let mut joined = octets(rt, alloc, first)?;
    joined.extend_from_slice(&octets(rt, alloc, second)?)?;
    Ok(joined)
}

/// What was read at an address is told by these octets.
fn shows(
    rt: &impl Abort,
    alloc: Global,
    address: &str,
    answer: Answer,
    told: &str,
) -> Result<(), NoMemory> {
    let mut text = String::from_str(alloc, READ)?;
    text.push_str(address)?;
    let request = message(rt, alloc, text.as_str())?;
    tells(rt, alloc, &request, &Ok(answer), [ANSWER, told])
}

#[test]
fn outcomes(rt: HostRuntime) -> Result<(), Fail> {
    let alloc = rt.alloc();
    let request = message(&rt, alloc, RELEASE)?;
    let price = Mills::new(1_500).expect(&rt, "a price");
    let cents = Cents::new(1_500).expect(&rt, "cents");
    let cases = [
        (Answer::Done, "00 08 01 23 01 01 00 03 01 00"),
        (Answer::Calling, "00 08 01 23 01 01 00 03 01 01"),
        (
            start(Preset::Unset, price),
            "00 0E 01 23 01 01 00 03 01 02 72 04 00 00 05 DC",
        ),
        (
            start(Preset::Volume(3_000), price),
            "00 14 01 23 01 01 00 03 01 02 50 04 00 00 0B B8 72 04 00 00 05 DC",
        ),
        (
            start(Preset::Money(2_000), price),
            "00 14 01 23 01 01 00 03 01 02 51 04 00 00 07 D0 72 04 00 00 05 DC",
        ),
        (
            Answer::Flowed(12_345),
            "00 12 01 23 01 01 00 03 01 03 73 08 00 00 00 00 00 00 30 39",
        ),
        (Answer::HungUp, "00 08 01 23 01 01 00 03 01 04"),
        (Answer::NoSale, "00 08 01 23 01 01 00 03 01 05"),
        (Answer::Stopped, "00 08 01 23 01 01 00 03 01 07"),
        (Answer::Ending, "00 08 01 23 01 01 00 03 01 08"),
        (Answer::Locked, "00 08 01 23 01 01 00 03 01 09"),
        (Answer::Unlocked, "00 08 01 23 01 01 00 03 01 0A"),
        (
            Answer::Cleared(cents),
            "00 12 01 23 01 01 00 03 01 0B 75 08 00 00 00 00 00 00 05 DC",
        ),
        (
            Answer::Drawn { growth: 20_000 },
            "00 12 01 23 01 01 00 03 01 0D 73 08 00 00 00 00 00 00 4E 20",
        ),
    ];
    for (answer, told) in cases {
        tells(&rt, alloc, &request, &Ok(answer), [ACK, told])?;
    }
    Ok(())
}

fn start(preset: Preset, price: Mills) -> Answer {
    Answer::Start { preset, price }
}

/// Sales and shifts have numbers.
#[test]
fn numbered_outcomes(rt: HostRuntime) -> Result<(), Fail> {
    let alloc = rt.alloc();
    let request = message(&rt, alloc, RELEASE)?;
    let sales = [
        (
            1,
            0,
            "00 16 01 23 01 01 00 03 01 06 73 08 00 00 00 00 00 00 00 00 74 02 00 01",
        ),
        (
            1_234,
            10_000,
            "00 16 01 23 01 01 00 03 01 06 73 08 00 00 00 00 00 00 27 10 74 02 12 34",
        ),
        (
            9_999,
            1_000_000,
            "00 16 01 23 01 01 00 03 01 06 73 08 00 00 00 00 00 0F 42 40 74 02 99 99",
        ),
    ];
    for (number, growth, told) in sales {
        let seq = Seq::new(number).expect(&rt, "a number");
        let sold = Ok(Answer::Sold { seq, growth });
        tells(&rt, alloc, &request, &sold, [ACK, told])?;
    }
    let shifts = [
        (1, "00 0C 01 23 01 01 00 03 01 0C 76 02 00 01"),
        (998, "00 0C 01 23 01 01 00 03 01 0C 76 02 03 E6"),
    ];
    for (number, told) in shifts {
        let shift = ShiftNo::new(number).expect(&rt, "a shift");
        let closed = Ok(Answer::ShiftClosed(shift));
        tells(&rt, alloc, &request, &closed, [ACK, told])?;
    }
    Ok(())
}

#[test]
fn points(rt: HostRuntime) -> Result<(), Fail> {
    let alloc = rt.alloc();
    let idle = PointView {
        state: PointState::Idle,
        out: None,
        holder: None,
        ending: false,
        test: false,
        preset: Preset::Unset,
        prepaid: None,
        price: 0,
        volume: 0,
    };
    let prepaid = PointView {
        state: PointState::SuspendedStarted,
        out: NozzleNo::new(2),
        holder: TillNo::new(32),
        ending: false,
        test: false,
        preset: Preset::Money(2_000),
        prepaid: Some(2_000),
        price: 1_799,
        volume: 0,
    };
    let test = PointView {
        state: PointState::SuspendedFuelling,
        out: NozzleNo::new(1),
        holder: TillNo::new(1),
        ending: true,
        test: true,
        preset: Preset::Volume(3_000),
        prepaid: None,
        price: 1_500,
        volume: 5_000,
    };
    let cases = [
        (
            idle,
            "00 1E 01 23 10 01 03 11 01 00 12 01 00 13 01 00 72 04 00 00 00 00\
 73 08 00 00 00 00 00 00 00 00",
        ),
        (
            prepaid,
            "00 2A 01 23 10 01 07 11 01 02 12 01 20 13 01 00 51 04 00 00 07 D0\
 72 04 00 00 07 07 73 08 00 00 00 00 00 00 00 00 77 04 00 00 07 D0",
        ),
        (
            test,
            "00 27 01 23 10 01 09 11 01 01 12 01 01 13 01 01 14 01 01 50 04 00 00 0B B8\
 72 04 00 00 05 DC 73 08 00 00 00 00 00 00 13 88",
        ),
    ];
    for (view, told) in cases {
        shows(&rt, alloc, "00 02 01 23", Answer::PointIs(view), told)?;
    }
    Ok(())
}

#[test]
fn transactions(rt: HostRuntime) -> Result<(), Fail> {
    let alloc = rt.alloc();
    let cases = [
        (
            None,
            Status::Payable,
            None,
            "00 2E 04 23 21 00 01 72 04 00 00 07 07 73 08 00 00 00 00 00 00 30 39\
 75 08 00 00 00 00 00 00 08 AD 77 04 00 00 00 00 78 01 02 79 01 00 7A 01 02",
        ),
        (
            Some(2_000),
            Status::Locked,
            TillNo::new(2),
            "00 2E 04 23 21 00 01 72 04 00 00 07 07 73 08 00 00 00 00 00 00 30 39\
 75 08 00 00 00 00 00 00 08 AD 77 04 00 00 07 D0 78 01 03 79 01 02 7A 01 02",
        ),
        (
            None,
            Status::Cleared,
            TillNo::new(32),
            "00 2E 04 23 21 00 01 72 04 00 00 07 07 73 08 00 00 00 00 00 00 30 39\
 75 08 00 00 00 00 00 00 08 AD 77 04 00 00 00 00 78 01 01 79 01 20 7A 01 02",
        ),
    ];
    for (prepaid, status, till, told) in cases {
        let view = TransactionView {
            price: Mills::new(1_799).expect(&rt, "a price"),
            volume: Millilitres::new(12_345).expect(&rt, "a volume"),
            cents: Cents::new(2_221).expect(&rt, "cents"),
            prepaid,
            status,
            till,
            product: ProductNo::new(2).expect(&rt, "a product"),
        };
        shows(
            &rt,
            alloc,
            "00 05 04 23 21 00 01",
            Answer::TransactionIs(view),
            told,
        )?;
    }
    Ok(())
}

#[test]
fn products_and_the_site(rt: HostRuntime) -> Result<(), Fail> {
    let alloc = rt.alloc();
    let product = ProductView {
        price: Mills::new(1_799).expect(&rt, "a price"),
        metered: 15,
        running: 1,
        payable: 2,
        locked: 3,
        cleared: 4,
        adjusted: 5,
    };
    shows(
        &rt,
        alloc,
        "00 02 01 82",
        Answer::ProductIs(product),
        "00 44 01 82 72 04 00 00 07 07 7B 08 00 00 00 00 00 00 00 0F\
 7C 08 00 00 00 00 00 00 00 01 7D 08 00 00 00 00 00 00 00 02\
 7E 08 00 00 00 00 00 00 00 03 7F 08 00 00 00 00 00 00 00 04\
 85 08 00 00 00 00 00 00 00 05",
    )?;
    let site = SiteView {
        cents: 1_500,
        shift: ShiftNo::new(999).expect(&rt, "a shift"),
    };
    shows(
        &rt,
        alloc,
        "00 02 01 01",
        Answer::SiteIs(site),
        "00 10 01 01 75 08 00 00 00 00 00 00 05 DC 76 02 03 E7",
    )?;
    Ok(())
}

#[test]
fn refusals(rt: HostRuntime) -> Result<(), Fail> {
    let alloc = rt.alloc();
    let request = message(&rt, alloc, RELEASE)?;
    let cases = [
        (Refusal::NotSignedOn, "00 05 01 23 01 01 01"),
        (Refusal::SignedOn, "00 05 01 23 01 01 02"),
        (Refusal::NoSuchPoint, "00 05 01 23 01 01 03"),
        (Refusal::NoSuchNozzle, "00 05 01 23 01 01 04"),
        (Refusal::NoSuchProduct, "00 05 01 23 01 01 05"),
        (Refusal::NoSuchTransaction, "00 05 01 23 01 01 06"),
        (Refusal::NotManager, "00 05 01 23 01 01 07"),
        (Refusal::BadPrice, "00 05 01 23 01 01 08"),
        (Refusal::BadPreset, "00 05 01 23 01 01 09"),
        (Refusal::NotYours, "00 05 01 23 01 01 0C"),
        (Refusal::NotYourPoint, "00 05 01 23 01 01 0D"),
        (Refusal::BufferFull, "00 05 01 23 01 01 0F"),
        (Refusal::SequenceSpent, "00 05 01 23 01 01 10"),
        (Refusal::MeterJump, "00 05 01 23 01 01 13"),
        (Refusal::NotLocked, "00 05 01 23 01 01 15"),
        (Refusal::Ending, "00 05 01 23 01 01 17"),
        (Refusal::ShiftsSpent, "00 05 01 23 01 01 18"),
        (Refusal::MeterSpent, "00 05 01 23 01 01 19"),
    ];
    for (refusal, told) in cases {
        tells(&rt, alloc, &request, &Err(refusal), [ACK, told])?;
    }
    Ok(())
}

#[test]
fn refusals_with_a_detail(rt: HostRuntime) -> Result<(), Fail> {
    let alloc = rt.alloc();
    let request = message(&rt, alloc, RELEASE)?;
    let till = TillNo::new(32).expect(&rt, "a till");
    let nozzle = NozzleNo::new(2).expect(&rt, "a nozzle");
    let reading = Millilitres::new(5_000).expect(&rt, "a reading");
    let cases = [
        (
            Refusal::WrongState(PointState::Authorised),
            "00 0F 01 23 01 01 0A 02 08 00 00 00 00 00 00 00 05",
        ),
        (
            Refusal::AssignedToOther(till),
            "00 0F 01 23 01 01 0B 02 08 00 00 00 00 00 00 00 20",
        ),
        (
            Refusal::WrongNozzle(nozzle),
            "00 0F 01 23 01 01 0E 02 08 00 00 00 00 00 00 00 02",
        ),
        (
            Refusal::MeterGap(reading),
            "00 0F 01 23 01 01 11 02 08 00 00 00 00 00 00 13 88",
        ),
        (
            Refusal::MeterBack(reading),
            "00 0F 01 23 01 01 12 02 08 00 00 00 00 00 00 13 88",
        ),
        (
            Refusal::LockedByOther(till),
            "00 0F 01 23 01 01 14 02 08 00 00 00 00 00 00 00 20",
        ),
        (
            Refusal::AlreadyCleared(till),
            "00 0F 01 23 01 01 16 02 08 00 00 00 00 00 00 00 20",
        ),
    ];
    for (refusal, told) in cases {
        tells(&rt, alloc, &request, &Err(refusal), [ACK, told])?;
    }
    Ok(())
}

/// No row was made (30, 31), or the request means no event (50 to 58).
#[test]
fn numbers_in_place_of_a_reply(rt: HostRuntime) -> Result<(), Fail> {
    let alloc = rt.alloc();
    let request = message(&rt, alloc, RELEASE)?;
    let cases = [
        (30u8, "00 05 01 23 01 01 1E"),
        (31, "00 05 01 23 01 01 1F"),
        (50, "00 05 01 23 01 01 32"),
        (51, "00 05 01 23 01 01 33"),
        (52, "00 05 01 23 01 01 34"),
        (53, "00 05 01 23 01 01 35"),
        (54, "00 05 01 23 01 01 36"),
        (55, "00 05 01 23 01 01 37"),
        (56, "00 05 01 23 01 01 38"),
        (57, "00 05 01 23 01 01 39"),
        (58, "00 05 01 23 01 01 3A"),
    ];
    for (number, told) in cases {
        let refusal = encode(alloc, &refusal_of(alloc, &request, number)?)?;
        assert!(rt; refusal == join(&rt, alloc, [ACK, told])?, "told otherwise");
    }
    Ok(())
}
