//! A till and a dispenser at one station.

use app_message::{Message, Token, encode};
use device_map::{change_of, encode_request, reply_of};
use forecourt_engines::known_site;
use site_base::{Actor, Event, FpNo, NoMemory, Preset, TillNo};
use site_book::SiteBook;
use station::{Gates, PeerEnd, Station};
use std::alloc::Global;
use std::process::Abort;
use std::test::Fail;

/// The request of an actor.
fn request<R: Abort>(
    rt: &R,
    alloc: Global,
    actor: Actor,
    event: Event,
) -> Result<Message, NoMemory> {
    let made = encode_request(alloc, Token::new(3).expect(rt, "a token"), actor, event)?;
    Ok(made.expect(rt, "a request"))
}

/// The octets of a reply to this request, as the row at this place has it.
fn reply_at<R: Abort>(
    rt: &R,
    alloc: Global,
    station: &Station,
    place: u64,
    request: &Message,
) -> Result<Vec<u8>, NoMemory> {
    let row = station.book().row(place).expect(rt, "a row");
    encode(alloc, &reply_of(alloc, request, &row.reply)?)
}

/// The octets of the notice of the row at this place.
fn notice_at<R: Abort>(
    rt: &R,
    alloc: Global,
    station: &Station,
    place: u64,
) -> Result<Vec<u8>, NoMemory> {
    let row = station.book().row(place).expect(rt, "a row");
    let change = change_of(alloc, &row)?;
    encode(alloc, &change.expect(rt, "a change"))
}

/// Is the row at this place a sign-off?
fn is_sign_off<R: Abort>(rt: &R, station: &Station, place: u64) -> bool {
    let row = station.book().row(place).expect(rt, "a row");
    row.event == Event::SignOff
}

/// Is the peer owed just these octets? They are taken then.
fn is_owed(station: &mut Station, key: usize, octets: &[u8]) -> bool {
    let same = station.owed_octets(key) == octets;
    station.take(key, octets.len());
    same
}

#[test]
fn dispenser_hears_of_its_release(rt: HostRuntime) -> Result<(), Fail> {
    let alloc = rt.alloc();
    let till = Actor::Till(TillNo::new(1).expect(&rt, "till 1"));
    let point = FpNo::new(2).expect(&rt, "point 2");
    let book = SiteBook::try_open(alloc, &known_site(alloc)?)?;
    let mut station = Station::new(alloc, Gates::new(alloc), book);
    let t = station.arrive()?.expect(&rt, "a key");
    let d = station.arrive()?.expect(&rt, "a key");
    assert!(rt; t == 0 && d == 1);

    // The till signs on and opens the point; its octets come in two pieces.
    let on = request(&rt, alloc, till, Event::SignOn)?;
    let open = request(&rt, alloc, till, Event::Open(point))?;
    let mut octets = encode(alloc, &on)?;
    octets.extend_from_slice(&encode(alloc, &open)?)?;
    assert!(rt; octets.len() > 5);
    station.hear(t, &octets[..5]);
    assert!(rt; station.owed_octets(t).is_empty());
    station.hear(t, &octets[5..]);
    let mut told = reply_at(&rt, alloc, &station, 0, &on)?;
    told.extend_from_slice(&reply_at(&rt, alloc, &station, 1, &open)?)?;
    assert!(rt; is_owed(&mut station, t, &told), "the till's replies");
    assert!(rt; station.owed_octets(d).is_empty());

    // The dispenser reports: behind the reply it is told that its point is open.
    let online = request(&rt, alloc, Actor::Dispenser(point), Event::Online(point))?;
    station.hear(d, &encode(alloc, &online)?);
    let mut told = reply_at(&rt, alloc, &station, 2, &online)?;
    told.extend_from_slice(&notice_at(&rt, alloc, &station, 1)?)?;
    assert!(rt; is_owed(&mut station, d, &told), "the standing notice");
    assert!(rt; station.next_owed(0).is_none());

    // The till releases the point: the dispenser is told so.
    let release = request(
        &rt,
        alloc,
        till,
        Event::Release(point, Preset::Money(2_000)),
    )?;
    station.hear(t, &encode(alloc, &release)?);
    let told = reply_at(&rt, alloc, &station, 3, &release)?;
    assert!(rt; is_owed(&mut station, t, &told), "the reply to the release");
    let told = notice_at(&rt, alloc, &station, 3)?;
    assert!(rt; station.next_owed(0) == Some(d) && station.next_owed(d + 1).is_none());
    assert!(rt;
        is_owed(&mut station, d, &told),
        "the notice of the release"
    );
    assert!(rt; station.next_owed(0).is_none());

    // The till is gone: it is signed off.
    station.leave(t);
    assert!(rt; station.book().len() == 5);
    assert!(rt; is_sign_off(&rt, &station, 4), "the sign-off");
    assert!(rt; station.end(d).is_none());
    station.finish(d);
    assert!(rt; station.end(d) == Some(PeerEnd::Well));
    Ok(())
}
