//! Checks whether a message can be made of its parts.

ghost use Rattle.std.specs.Prelude.{◌≡◌, ◌≤◌, ◌<◌, ◌⊎◌, List, length, take, drop, slice_index};
ghost use Rattle.std.specs.Prelude.{nat_le};
ghost use Rattle.std.specs.Prelude.{true, Some, None, IfErr, OnOk};
ghost use Rattle.app_message.specs.declared.sizes.TheConstants.{LONGEST_ADDRESS, LONGEST_BODY};
ghost use Rattle.app_message.specs.Telegram.{Entry, entries, AreOctets};
ghost use Rattle.app_message.specs.Spelling.{body_text, IsHead};
ghost use Rattle.app_message.specs.Parts.{parts_fault, do_rise};

use crate::fault::MessageFault;
use crate::sizes::{LONGEST_ADDRESS, LONGEST_BODY, LONGEST_CONTENT};
use crate::token::Token;

/// Checks these parts, and returns their first fault, if they have one.
#[tactic(auto, unfolding(crate::specs::Parts::parts_fault))]
pub fn check(address: &[u8], items: &[(u8, &[u8])]) -> Result<(), MessageFault>
    ensures ok { OnOk result (parts_fault address.now (entries items.now) ≡ None) }
    ensures err { IfErr result (λ e. parts_fault address.now (entries items.now) ≡ Some e) }
{
    check_address(address)?;
    if !fits_body(address, items) {
        return Err(MessageFault::BadLength);
    }
    if !rise(items) {
        return Err(MessageFault::BadItem);
    }
    Ok(())
}

/// Checks that an address isn't empty or above 8 octets.
#[tactic(auto, unfolding(crate::specs::Parts::parts_fault))]
pub fn check_address(address: &[u8]) -> Result<(), MessageFault>
    ensures least { OnOk result (1 ≤ length address.now) }
    ensures most { OnOk result (length address.now ≤ LONGEST_ADDRESS) }
    ensures err { IfErr result (λ e. (items : List Entry)
        → parts_fault address.now items ≡ Some e) }
    ensures fault { IfErr result (λ e. (e ≡ MessageFault.BadLength)
        × ((length address.now ≡ 0) ⊎ (LONGEST_ADDRESS < length address.now))) }
{
    if address.is_empty() {
        return Err(MessageFault::BadLength);
    }
    if address.len() > LONGEST_ADDRESS {
        return Err(MessageFault::BadLength);
    }
    Ok(())
}

/// Whether the address and the items take at most 1,024 octets in all.
fn fits_body(address: &[u8], items: &[(u8, &[u8])]) -> bool
    requires { length address.now ≤ LONGEST_ADDRESS }
    ensures { result ≡ nat_le (length (body_text address.now (entries items.now))) LONGEST_BODY }
{
    let mut left = LONGEST_BODY - 1 - address.len();
    for (_, content) in items {
        let size = content.len().saturating_add(2);
        if left < size {
            return false;
        }
        left -= size;
    }
    true
}

/// Whether the identifiers strictly rise, and each content has at most 254 octets.
fn rise(items: &[(u8, &[u8])]) -> bool
    ensures { result ≡ do_rise 0 (entries items.now) }
{
    let mut low = 0u16;
    for (id, content) in items {
        if u16::from(*id) < low {
            return false;
        }
        if content.len() > LONGEST_CONTENT {
            return false;
        }
        low = u16::from(*id) + 1;
    }
    true
}

/// Returns the address and the items in the octets of a body.
pub fn split(body: &[u8]) -> (&[u8], &[u8])
    requires { slice_index body.now 0 < length body.now }
    ensures address { result.0.now ≡ take (slice_index body.now 0) (drop 1 body.now) }
    ensures items { result.1.now ≡ drop (slice_index body.now 0) (drop 1 body.now) }
{
    body[1..].split_at(usize::from(body[0]))
}

/// States what the types of these parts say: two octets each, and a token of five bits.
pub fn know_types(to: &[u8; 2], from: &[u8; 2], token: Token)
    ensures { IsHead to.now from.now token }
{
    let _ = token.get();
    octets(to);
    octets(from);
}

/// Octets are below 256.
fn octets(s: &[u8])
    ensures { AreOctets s.now }
{
    let _ = s;
}
