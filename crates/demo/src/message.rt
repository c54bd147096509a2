//! A line that is one message.

ghost use Rattle.std.specs.Prelude.{◌≡◌, ◌≢◌, [], ◌∷◌, None, IfOk, IfSome, IfNone};
ghost use Rattle.app_message.specs.Stream.{stream, stream_of};
ghost use Rattle.app_message.specs.Telegram.{Telegram};
ghost use Rattle.demo.specs.Script.{IsMessageText};

use app_message::{Decoder, Message, Messages};
use hex_lines::{LineText, read_octets};
use site_base::NoMemory;
use std::alloc::Global;

/// Returns the message that the text is in hexadecimal, where spaces don't count; None if it isn't
/// one whole message.
pub fn message_of(alloc: Global, text: &[u8]) -> Result<Option<Message>, NoMemory>
    ensures found { IfOk result (λ found. IfSome found (λ m. IsMessageText text.now m)) }
    ensures other { IfOk result (λ found.
        IfNone found ((m : Telegram) → ¬ IsMessageText text.now m)) }
{
    let (mut kept, mut octets) = (Vec::new(alloc), Vec::new(alloc));
    match read_octets(text, &mut kept, &mut octets)? {
        LineText::Octets => whole_message(alloc, &octets),
        LineText::Skipped | LineText::NotHexadecimal => Ok(None),
    }
}

/// The message that these octets spell; None where they aren't the spelling of one.
fn whole_message(alloc: Global, octets: &[u8]) -> Result<Option<Message>, NoMemory>
    ensures found { IfOk result (λ found.
        IfSome found (λ m. stream_of octets.now ≡ stream (m ∷ []) [] None)) }
    ensures other { IfOk result (λ found. IfNone found
        ((m : Telegram) → ¬ (stream_of octets.now ≡ stream (m ∷ []) [] None))) }
{
    let mut decoder = Decoder::new(alloc);
    match decoder.feed(octets) {
        Ok(fed) => {
            if fed.fault.is_some() {
                return Ok(None);
            }
            if decoder.held() > 0 {
                return Ok(None);
            }
            match only_one(fed.messages) {
                Some(message) => Ok(Some(message)),
                None => Ok(None),
            }
        }
        Err(NoMemory) => Err(NoMemory),
    }
}

/// The message of a list that has just one.
fn only_one(messages: Messages) -> Option<Message>
    ensures found { IfSome result (λ m. messages ≡ m ∷ []) }
    ensures other { IfNone result ((m : Telegram) → messages ≢ m ∷ []) }
{
    let mut messages = messages.into_vec();
    if messages.len() != 1 {
        return None;
    }
    messages.pop()
}
