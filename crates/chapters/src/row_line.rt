//! The lines of rows.

ghost use Rattle.std.specs.Prelude.{◌≡◌, ◌++◌, OnOk};
ghost use Rattle.device_map.specs.Laws.{AsksFor};
ghost use Rattle.chapters.specs.RowText.{IsSent, row_line, row_request};

use app_message::Token;
use device_map::encode_request;
use hex_lines::put_line;
use site_base::{NoMemory, Row};
use std::alloc::Global;

/// Appends the line of a row: the request of its actor and event, with token 0, of which there is
/// just one.
pub(crate) fn put_row_line(alloc: Global, row: &Row, text: &mut Vec<u8>) -> Result<(), NoMemory>
    requires { IsSent row.now }
    ensures line { OnOk result (text.new.items ≡ text.old.items ++ row_line row.now) }
    ensures asks { OnOk result (AsksFor 0 row.now.actor row.now.event (row_request row.now)) }
{
    let token = Token::new(0).unwrap();
    let Some(request) = encode_request(alloc, token, row.actor, row.event)? else {
        unreachable!();
    };
    put_line(text, &request)?;
    Ok(())
}
