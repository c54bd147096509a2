//! Lists of events, one after another.

ghost use Rattle.std.specs.Prelude.{◌≡◌, ◌<◌, length, take, IfOk, OnOk, IfErr, vec_len};
ghost use Rattle.std.specs.Prelude.{vec_capacity};
ghost use Rattle.site_core.specs.Views.{HasRoom};
ghost use Rattle.written_site.specs.SiteRun.{replies_to, site_at_end};

use crate::site::Site;
use site_base::{
    Actor, Answer, Cents, Event, Millilitres, Mills, NoMemory, NozzleNo, PointView, ProductNo,
    ProductView, Refusal, Reply, Seq, SiteView, TillNo, TransactionView,
};
use std::alloc::Global;

/// A run for which memory ran out. It has done the first `done` events, and no other.
#[derive(Clone, Copy, Debug, PartialEq, Eq)]
pub struct RunStopped {
    /// The number of events that are done.
    pub done: usize,
}

/// The types that a reply tells of. The prover looks for them in a function whose loop carries
/// replies.
type Told = (
    Answer,
    Refusal,
    PointView,
    TransactionView,
    ProductView,
    SiteView,
    NozzleNo,
    TillNo,
    ProductNo,
    Seq,
    Cents,
    Millilitres,
    Mills,
);

/// Takes the written step for each event in turn, from the present site, and returns the replies.
/// If an allocation fails, it stops: the events before that one are done, and the others aren't.
pub fn run(
    alloc: Global,
    site: &mut Site,
    events: &[(Actor, Event)],
) -> Result<Vec<Reply>, RunStopped>
    ensures replies { IfOk result (λ replies. replies.items ≡ replies_to site.old.site events.now) }
    ensures site { OnOk result (site.new.site ≡ site_at_end site.old.site events.now) }
    ensures within { IfErr result (λ stop. stop.done < length events.now) }
    ensures stopped { IfErr result
        (λ stop. site.new.site ≡ site_at_end site.old.site (take stop.done events.now)) }
{
    let _told: Option<Told> = None;
    let mut replies = Vec::new(alloc);
    for entry in events {
        let (actor, event) = entry;
        if let Err(NoMemory) = make_room(&mut replies, site, *actor, event) {
            return Err(RunStopped {
                done: replies.len(),
            });
        }
        replies.push_reserved(site.step(*actor, *event));
    }
    Ok(replies)
}

/// Makes the room of one more reply and of the event's step. The replies and the site stay.
fn make_room(
    replies: &mut Vec<Reply>,
    site: &mut Site,
    actor: Actor,
    event: &Event,
) -> Result<(), NoMemory>
    ensures replies { replies.new.items ≡ replies.old.items }
    ensures site { site.new.site ≡ site.old.site }
    ensures reply { OnOk result (vec_len replies.new < vec_capacity replies.new) }
    ensures step { OnOk result (HasRoom site.new.room event.now) }
{
    replies.reserve(1)?;
    site.prepare(actor, event)
}
