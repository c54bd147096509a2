//! Changes: the notices to dispensers.

ghost use Rattle.std.specs.Prelude.{◌≡◌, ◌<◌, [], ◌∷◌, Some, None, IfOk, IfSome};
ghost use Rattle.app_message.specs.Telegram.{entry};
ghost use Rattle.device_map.specs.declared.ids.TheConstants.{PRESET_VOLUME};
ghost use Rattle.device_map.specs.Changes.{change_by, change_of, notice};
ghost use Rattle.device_map.specs.Replies.{preset_items};

use crate::item_writing::put_command;
use crate::reply::{begin_message, finish_message, put_preset};
use crate::request::request_of;
use crate::{ids, node};
use app_message::{Draft, Kind, Message, MessageFault, Token};
use site_base::{Event, FpNo, NoMemory, Preset, Row, TillNo};
use std::alloc::Global;

/// Returns the notice of a change to the dispenser of a fuelling point: of a command that was
/// accepted and moves the point. It is a notice from the site with token 0, the point's address and
/// the items of the command's request. Returns None for any other row.
pub fn change_of(alloc: Global, row: &Row) -> Result<Option<Message>, NoMemory>
    ensures { IfOk result (λ change. change ≡ change_of row.now) }
{
    if row.reply.is_err() {
        return Ok(None);
    }
    change_by(alloc, row.event)
}

/// The message that tells of an accepted event, where it is a change.
fn change_by(alloc: Global, event: Event) -> Result<Option<Message>, NoMemory>
    ensures { IfOk result (λ change. change ≡ change_by event) }
{
    match event {
        Event::Open(p) => Ok(Some(notice_of(alloc, p, ids::OPEN)?)),
        Event::Close(p) => Ok(Some(notice_of(alloc, p, ids::CLOSE)?)),
        Event::Release(p, preset) => Ok(Some(notice_within(alloc, p, ids::RELEASE, preset)?)),
        Event::Prepay(p, cents) => {
            Ok(Some(notice_within(alloc, p, ids::PREPAY, Preset::Money(cents))?))
        }
        Event::TestRelease(p) => Ok(Some(notice_of(alloc, p, ids::TEST_RELEASE)?)),
        Event::Suspend(p) => Ok(Some(notice_of(alloc, p, ids::SUSPEND)?)),
        Event::Resume(p) => Ok(Some(notice_of(alloc, p, ids::RESUME)?)),
        Event::Terminate(p) => Ok(Some(notice_of(alloc, p, ids::TERMINATE)?)),
        Event::SignOn | Event::SignOff | Event::CloseShift => Ok(None),
        Event::Assign(_) | Event::Unassign(_) | Event::ReplaceMeter(_, _, _) => Ok(None),
        Event::Lock(_, _) | Event::Unlock(_, _) | Event::Clear(_, _) => Ok(None),
        Event::SetPrice(_, _) | Event::ReadSite | Event::ReadPoint(_) => Ok(None),
        Event::ReadTransaction(_, _) | Event::ReadProduct(_) => Ok(None),
        Event::Online(_) | Event::Offline(_) | Event::Lift(_, _, _) => Ok(None),
        Event::Flow(_, _, _) | Event::HangUp(_, _, _) => Ok(None),
    }
}

/// Returns the event of the change in a message, if it has one. Then the message is exactly the
/// protocol's for that change.
pub fn decode_change(alloc: Global, message: &Message) -> Result<Option<Event>, NoMemory>
    ensures { IfOk result (λ told. IfSome told (λ event. change_by event ≡ Some message.now)) }
{
    let event = &match read_command(alloc, message)? {
        None => return Ok(None),
        Some(event) => event,
    };
    // What was read is right where it is spelled so again.
    match change_by(alloc, *event)? {
        None => Ok(None),
        Some(change) => {
            if change.is(message) {
                return Ok(Some(*event));
            }
            Ok(None)
        }
    }
}

/// The event that the address and the items ask for in a till's command, if they ask for one.
fn read_command(alloc: Global, message: &Message) -> Result<Option<Event>, NoMemory> {
    let (site, till) = (node::site(), node::till(TillNo::new(1).unwrap()));
    let (token, address) = (message.token(), message.address());
    match Draft::try_new(alloc, site, till, Kind::Write, token, address, 0) {
        Err(MessageFault::NoMemory) => Err(NoMemory),
        Err(_) => Ok(None),
        Ok(mut draft) => {
            for item in message.items() {
                if draft.put(item.id(), item.content()).is_err() {
                    return Err(NoMemory);
                }
            }
            match draft.finish() {
                Err(_) => Ok(None),
                Ok(command) => match request_of(&command) {
                    Err(_) => Ok(None),
                    Ok((_, event)) => Ok(Some(event)),
                },
            }
        }
    }
}

/// The notice of a command without further items to the dispenser of this point.
fn notice_of(alloc: Global, point: FpNo, command: u8) -> Result<Message, NoMemory>
    requires { command < PRESET_VOLUME }
    ensures { IfOk result (λ message. message ≡ notice point (entry command [] ∷ [])) }
{
    notice_within(alloc, point, command, Preset::Unset)
}

/// The notice of a command with this preset to the dispenser of this point.
fn notice_within(
    alloc: Global,
    point: FpNo,
    command: u8,
    preset: Preset,
) -> Result<Message, NoMemory>
    requires { command < PRESET_VOLUME }
    ensures { IfOk result (λ message. message
        ≡ notice point (entry command [] ∷ preset_items preset)) }
{
    let (to, site) = (node::dispenser(point), node::site());
    let token = Token::new(0).unwrap();
    let address = [ids::POINT_ADDRESS + point.get()];
    let mut draft = begin_message(alloc, to, site, Kind::Notice, token, &address)?;
    put_command(&mut draft, command)?;
    put_preset(&mut draft, preset)?;
    Ok(finish_message(draft))
}
