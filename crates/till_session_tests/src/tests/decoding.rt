//! What a decoder keeps of an unfinished message.

use super::calls::octets;
use app_message::{Decoder, encode};
use site_base::NoMemory;
use std::alloc::Global;
use std::process::Abort;
use std::test::Fail;

/// The octets of the longest message: to address 01, with items 01, 02 and 03 of 254 octets and 04
/// of 252.
fn longest_message(rt: &impl Abort, alloc: Global) -> Result<Vec<u8>, NoMemory> {
    let mut message = octets(rt, alloc, "01 01 02 01 00 41 04 00 01 01")?;
    for (id, size) in [(1u8, 254u8), (2, 254), (3, 254), (4, 252)] {
        message.push(id)?;
        message.push(size)?;
        for place in 0..size {
            message.push(place)?;
        }
    }
    Ok(message)
}

#[test]
fn longest(rt: HostRuntime) -> Result<(), Fail> {
    let alloc = rt.alloc();
    let message = longest_message(&rt, alloc)?;
    assert!(rt; message.len() == 1_032, "another length");
    let mut front = Vec::from_slice(alloc, &message)?;
    let last = front.pop().expect(&rt, "a last octet");
    let mut decoder = Decoder::new(alloc);
    assert!(rt; decoder.held() == 0);
    let fed = decoder.feed(&front)?;
    assert!(rt; fed.messages.is_empty() && fed.fault.is_none() && decoder.held() == 1_031);
    let fed = decoder.feed(&[last])?;
    assert!(rt; fed.fault.is_none() && decoder.held() == 0);
    let messages = fed.messages.into_vec();
    assert!(rt; messages.len() == 1);
    assert!(rt;
        encode(alloc, &messages[0])? == message,
        "spelled otherwise"
    );
    Ok(())
}

#[test]
fn octets_are_kept_up_to_the_last(rt: HostRuntime) -> Result<(), Fail> {
    let alloc = rt.alloc();
    let message = longest_message(&rt, alloc)?;
    let mut decoder = Decoder::new(alloc);
    let mut fed_octets = 0u16;
    for octet in &message {
        let fed = decoder.feed(&[*octet])?;
        fed_octets = fed_octets.saturating_add(1);
        let is_whole = fed_octets == 1_032;
        assert!(rt; fed.fault.is_none() && fed.messages.is_empty() != is_whole);
        assert!(rt; decoder.held() == if is_whole { 0 } else { fed_octets });
    }
    // Its M_Lg says 1,025 octets now, so that nothing is kept behind the header.
    let header = octets(&rt, alloc, "01 01 02 01 00 41 04 01")?;
    let fed = decoder.feed(&header)?;
    assert!(rt; fed.fault.is_some() && fed.messages.is_empty() && decoder.held() == 0);
    Ok(())
}
