//! Writes messages as lines of hexadecimal.

ghost use Rattle.std.specs.Prelude.{◌≡◌, ◌≤◌, ◌<◌, ◌+◌, ◌++◌, ◌∷◌, [], ◌*◌, ◌^◌, length};
ghost use Rattle.std.specs.Prelude.{OnOk, replicate};
ghost use Rattle.hex.specs.Hex.{encode_lower};
ghost use Rattle.app_message.specs.declared.sizes.TheConstants.{HEADER, LONGEST_BODY};
ghost use Rattle.hex_lines.specs.Lines.{line_of};

use crate::plain_digits::{LANES, write_digits};
use app_message::Message;
use site_base::NoMemory;

/// As many as most lines have octets: to append all of them, and to cut off what is too much, is
/// cheaper than to append just so many as are needed.
const LINE_FEEDS: [u8; 128] = [b'\n'; 128];

/// Appends a message as a line of hexadecimal.
pub fn put_line(out: &mut Vec<u8>, message: &Message) -> Result<(), NoMemory>
    ensures { OnOk result (out.new.items ≡ out.old.items ++ line_of message.now) }
{
    let (head, body) = (message.head(), message.body());
    put_spelling(out, &head, body)
}

/// Appends the octets of two parts as a line of hexadecimal. It takes one growth at most.
fn put_spelling(out: &mut Vec<u8>, head: &[u8], body: &[u8]) -> Result<(), NoMemory>
    requires head { length head.now ≡ HEADER }
    requires body { length body.now ≤ LONGEST_BODY }
    ensures { OnOk result (out.new.items
        ≡ out.old.items ++ (encode_lower (head.now ++ body.now) ++ 10 ∷ [])) }
{
    let size = out.len();
    put_line_feeds(out, 2 * (head.len() + body.len()) + 1)?;
    spell(head, body, &mut out[size..]);
    Ok(())
}

/// Appends so many line feeds. It takes one growth at most.
#[inline(always)]
fn put_line_feeds(out: &mut Vec<u8>, count: usize) -> Result<(), NoMemory>
    requires { length out.old.items + count < 2 ^ 64 }
    ensures { OnOk result (out.new.items ≡ out.old.items ++ replicate count 10) }
{
    let size = out.len();
    if count > LINE_FEEDS.len() {
        out.resize(size + count, b'\n')?;
    } else {
        out.extend_from_slice(&LINE_FEEDS)?;
        out.truncate(size + count);
    }
    Ok(())
}

/// Writes the octets of two parts as hexadecimal over line feeds, of which the last one stays.
fn spell(head: &[u8], body: &[u8], place: &mut [u8])
    requires head { length head.now ≡ HEADER }
    requires place { place.old ≡ replicate (2 * (length head.now + length body.now) + 1) 10 }
    ensures { place.new ≡ encode_lower (head.now ++ body.now) ++ 10 ∷ [] }
{
    let (first, rest) = place.split_at_mut(2 * head.len());
    let (second, _) = rest.split_at_mut(2 * body.len());
    write_digits(head, first);
    put_digits(body, second);
}

/// Writes octets as hexadecimal, where there is just the place for them.
fn put_digits(octets: &[u8], place: &mut [u8])
    requires { length place.old ≡ 2 * length octets.now }
    ensures { place.new ≡ encode_lower octets.now }
{
    if octets.len() >= LANES {
        write_digits(octets, place);
        return;
    }
    match hex::encode_to_slice(octets, place) {
        Ok(()) => {}
        Err(_) => unreachable!(),
    }
}
