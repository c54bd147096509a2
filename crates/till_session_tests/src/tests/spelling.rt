//! A message made of its parts.

use super::calls::octets;
use app_message::{Kind, Message, Token, encode};
use std::test::Fail;

#[test]
fn spell(rt: HostRuntime) -> Result<(), Fail> {
    let alloc = rt.alloc();
    let token = Token::new(1).expect(&rt, "a token");
    let none: [u8; 0] = [];
    let items: [(u8, &[u8]); 1] = [(0x31, &none)];
    let message = Message::try_new(alloc, [1, 1], [2, 1], Kind::Write, token, &[1], &items)?;
    let spelled = octets(&rt, alloc, "01 01 02 01 00 41 00 04 01 01 31 00")?;
    assert!(rt; encode(alloc, &message)? == spelled, "spelled otherwise");
    Ok(())
}
