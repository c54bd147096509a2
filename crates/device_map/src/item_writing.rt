//! Writes items into a message.

ghost use Rattle.std.specs.Prelude.{◌≡◌, ◌≤◌, [], ◌∷◌, length, OnOk};
ghost use Rattle.app_message.specs.Telegram.{entry};
ghost use Rattle.app_message.specs.Bodies.{with_item, with_items};
ghost use Rattle.device_map.specs.Items.{octet, two_octets, four_octets, eight_octets};

use app_message::{Draft, MessageFault};
use site_base::NoMemory;

/// Puts a command, which has no content.
pub fn put_command(draft: &mut Draft, id: u8) -> Result<(), NoMemory>
    ensures { OnOk result (draft.new ≡ with_items draft.old (entry id [] ∷ [])) }
{
    put(draft, id, &[])
}

/// Puts an item of one octet.
#[tactic(auto, unfolding(crate::specs::Items::octet))]
#[inline(always)]
pub fn put_octet(draft: &mut Draft, id: u8, number: u8) -> Result<(), NoMemory>
    ensures { OnOk result (draft.new ≡ with_items draft.old (octet id number)) }
{
    put(draft, id, &[number])
}

/// Puts an item of two octets.
#[tactic(auto, unfolding(crate::specs::Items::two_octets))]
pub fn put_two(draft: &mut Draft, id: u8, number: u16) -> Result<(), NoMemory>
    ensures { OnOk result (draft.new ≡ with_items draft.old (two_octets id number)) }
{
    put(draft, id, &number.to_be_bytes())
}

/// Puts an item of four octets.
#[tactic(auto, unfolding(crate::specs::Items::four_octets))]
pub fn put_four(draft: &mut Draft, id: u8, number: u32) -> Result<(), NoMemory>
    ensures { OnOk result (draft.new ≡ with_items draft.old (four_octets id number)) }
{
    put(draft, id, &number.to_be_bytes())
}

/// Puts an item of eight octets.
#[tactic(auto, unfolding(crate::specs::Items::eight_octets))]
pub fn put_eight(draft: &mut Draft, id: u8, number: u64) -> Result<(), NoMemory>
    ensures { OnOk result (draft.new ≡ with_items draft.old (eight_octets id number)) }
{
    put(draft, id, &number.to_be_bytes())
}

#[inline(always)]
fn put(draft: &mut Draft, id: u8, content: &[u8]) -> Result<(), NoMemory>
    requires { length content.now ≤ 8 }
    ensures { OnOk result (draft.new ≡ with_item draft.old (entry id content.now)) }
{
    match draft.put(id, content) {
        Ok(()) => Ok(()),
        Err(fault) => match fault {
            MessageFault::NoMemory => Err(NoMemory),
            _ => unreachable!(),
        },
    }
}
