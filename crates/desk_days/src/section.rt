//! One section, worked through with its own share.

ghost use Rattle.std.specs.Prelude.{◌≡◌, [], ◌∷◌, ◌++◌, IfOk, OnErr};
ghost use Rattle.desk_days.specs.Sections.{AreServed, IsWorkedAt, octets_of};

use app_message::{Messages, encode_into};
use counter_desk::{Desk, Naming, OpenGate, Root, Share};
use demo::{Dispenser, DispenserEnd, DispenserFault, Section};
use devices::Counted;
use site_base::{NoMemory, SiteConfig};
use std::alloc::Global;
use std::sync::ledger::Ledger;
use std::sync::{Mutex, Wait};
use till_session::{DeskCounter, Session, SessionEnd};

/// How the work at a section ended.
#[derive(Clone, Copy)]
enum SectionEnd {
    /// A till's session ended so.
    Session(SessionEnd),
    /// There was no memory to spell a till's messages: none was served.
    Unspelled,
    /// So many of a dispenser's reports were answered with a sale, so many were refused; and why
    /// its run ended before its script did, if it did.
    Run {
        sold: u64,
        refused: u64,
        fault: Option<DispenserFault>,
    },
}

/// Takes a share, works through a section, and hands the share back. If there is no memory for a
/// share, it does nothing. No clause can say what the root is given: of its lock only the type is
/// known.
pub fn work_at<L: Ledger, C: Naming, R: Wait>(
    rt: &R,
    alloc: Global,
    config: &SiteConfig,
    desk: &Desk<L, C>,
    root: &Mutex<Root<L, C>>,
    section: &Section,
    turns: u64,
) {
    let given = root.lock(rt).give();
    if let Ok(share) = given {
        let (share, _end) = work_through(rt, alloc, config, desk, share, section, turns);
        root.lock(rt).take_back(share);
    }
}

/// Works at a section through a share. A dispenser's meters read what this configuration says,
/// which is the desk's.
fn work_through<L: Ledger, C: Naming, R: Wait>(
    rt: &R,
    alloc: Global,
    config: &SiteConfig,
    desk: &Desk<L, C>,
    share: Share<L, C>,
    section: &Section,
    turns: u64,
) -> (Share<L, C>, SectionEnd)
    ensures { IsWorkedAt C.config config.now turns section.now share.receipts result.0.receipts
        result.1 }
{
    match section {
        Section::Till(messages) => {
            let mut share = share;
            match serve_messages(rt, alloc, desk, &mut share, messages, turns) {
                Ok(end) => (share, SectionEnd::Session(end)),
                Err(NoMemory) => (share, SectionEnd::Unspelled),
            }
        }
        Section::Dispenser {
            point,
            polls,
            script,
        } => {
            let mut dispenser = Dispenser::new(config, *point);
            let DispenserEnd {
                share,
                sold,
                refused,
                fault,
            } = dispenser.run(rt, desk, share, script, *polls);
            let end = SectionEnd::Run {
                sold,
                refused,
                fault,
            };
            (share, end)
        }
    }
}

/// Serves a session over memory, whose input are these messages.
fn serve_messages<L: Ledger, C: Naming, R: Wait>(
    rt: &R,
    alloc: Global,
    desk: &Desk<L, C>,
    share: &mut Share<L, C>,
    messages: &Messages,
    turns: u64,
) -> Result<SessionEnd, NoMemory>
    ensures served { IfOk result (λ end.
        AreServed turns messages.now share.old.receipts end) }
    ensures err { OnErr result (share.new.receipts ≡ share.old.receipts) }
{
    let octets = spell_all(alloc, messages)?;
    let mut reader = Counted::new(octets.as_slice());
    let mut writer = Counted::new(Vec::new(alloc));
    let mut counter = DeskCounter::new(rt, desk, share, &OpenGate);
    let end = Session::run(alloc, &mut reader, &mut writer, &mut counter, turns);
    Ok(end)
}

/// The octets of messages, one behind the other.
fn spell_all(alloc: Global, messages: &Messages) -> Result<Vec<u8>, NoMemory>
    ensures { IfOk result (λ octets. octets.items ≡ octets_of messages.now) }
{
    let mut octets = Vec::new(alloc);
    let mut one = Vec::new(alloc);
    for message in messages.as_slice() {
        encode_into(message, &mut one)?;
        octets.extend_from_slice(&one)?;
    }
    Ok(octets)
}
