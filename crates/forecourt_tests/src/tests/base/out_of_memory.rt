//! For runs in which one allocation fails: what was there stays, and the same call then answers as
//! usual.

use site_base::{
    Actor, Answer, Event, FpNo, Listing, Millilitres, Mills, NoMemory, NozzleEntry, PointEntry,
    PriceBook, ProductEntry, ProductName, ProductNo, Row, SiteConfig, TillNo,
};
use site_book::Rows;
use std::alloc::Global;

/// A site of petrol at 1799.
fn site_of_petrol(alloc: Global) -> Result<Option<SiteConfig>, NoMemory> {
    let (Some(number), Some(product), Some(price), Some(reading)) = (
        FpNo::new(1),
        ProductNo::new(2),
        Mills::new(1799),
        Millilitres::new(0),
    ) else {
        return Ok(None);
    };
    let Some(name) = ProductName::new(String::from_str(alloc, "petrol")?) else {
        return Ok(None);
    };
    let mut products = Vec::new(alloc);
    products.push(ProductEntry {
        number: product,
        name,
        price,
    })?;
    let mut nozzles = Vec::new(alloc);
    nozzles.push(NozzleEntry { product, reading })?;
    let mut points = Vec::new(alloc);
    points.push(PointEntry {
        number,
        nozzles: Listing::from(nozzles),
    })?;
    Ok(SiteConfig::try_new(10, Vec::new(alloc), products, points))
}

/// Says that an allocation failed in this run.
fn tell_failure(rt: &impl Eprint) {
    let _ = rt.eprintln("an allocation failed");
}

#[test]
fn a_refused_room_leaves_the_rows(rt: HostRuntime) {
    let Some(till) = TillNo::new(1) else {
        panic!(&rt; "no till");
    };
    let row = &Row {
        actor: Actor::Till(till),
        event: Event::SignOn,
        reply: Ok(Answer::Done),
    };
    let mut rows = Rows::new(rt.alloc());
    for place in 0..6usize {
        let room = match rows.reserve(1) {
            Err(NoMemory) => {
                tell_failure(&rt);
                assert_eq!(rt; rows.len(), place);
                rows.reserve(1)
            }
            room => room,
        };
        assert_eq!(rt; room, Ok(()));
        rows.push(row);
    }
    assert_eq!(rt; rows.get(5), Some(*row));
    assert_eq!(rt; rows.get(6), None);
}

#[test]
fn refused_prices_are_made_again(rt: HostRuntime) {
    let alloc = rt.alloc();
    let config = match site_of_petrol(alloc) {
        Err(NoMemory) => {
            tell_failure(&rt);
            site_of_petrol(alloc)
        }
        config => config,
    };
    let Ok(Some(config)) = config else {
        panic!(&rt; "no site");
    };
    let book = match PriceBook::try_new(alloc, &config) {
        Err(NoMemory) => {
            tell_failure(&rt);
            PriceBook::try_new(alloc, &config)
        }
        book => book,
    };
    let (Ok(book), Some(petrol)) = (book, ProductNo::new(2)) else {
        panic!(&rt; "want of memory twice");
    };
    assert_eq!(rt; book.get(petrol), Mills::new(1799));
}
