//! Messages to octets.

ghost use Rattle.std.specs.Prelude.{◌≡◌, ◌≤◌, ◌+◌, [], length, IfOk, OnOk, OnErr};
ghost use Rattle.app_message.specs.declared.sizes.TheConstants.{HEADER, LONGEST_BODY};
ghost use Rattle.app_message.specs.Spelling.{spelling};

use crate::message::Message;
use crate::sizes::HEADER;
use site_base::NoMemory;
use std::alloc::Global;

/// Returns the one spelling of the message. The only error is that memory runs out.
pub fn encode(alloc: Global, message: &Message) -> Result<Vec<u8>, NoMemory>
    ensures { IfOk result (λ v. v.items ≡ spelling message.now) }
{
    let mut out = Vec::new(alloc);
    encode_into(message, &mut out)?;
    Ok(out)
}

/// Replaces what the buffer holds by the one spelling of the message. After `NoMemory` the buffer
/// is empty.
pub fn encode_into(message: &Message, out: &mut Vec<u8>) -> Result<(), NoMemory>
    ensures ok { OnOk result (out.new.items ≡ spelling message.now) }
    ensures most { length out.new.items ≤ HEADER + LONGEST_BODY }
    ensures err { OnErr result (out.new.items ≡ []) }
{
    let body = message.body();
    out.clear();
    out.reserve(HEADER + body.len())?;
    out.extend_from_slice(&message.head())?;
    out.extend_from_slice(body)?;
    Ok(())
}
