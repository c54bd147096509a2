//! Asks the station's book a request, and sends notices of its row.

ghost use Rattle.std.specs.Prelude.{◌≡◌, ◌≤◌, length, None, Some, map, option_map};
ghost use Rattle.site_base.specs.Events.{point_named};
ghost use Rattle.conversation.specs.Books.{IsAskedOf};
ghost use Rattle.device_map.specs.Changes.{change_by};
ghost use Rattle.peer_talk.specs.Exchanges.{change_by as sign_change_by, row_made};
ghost use Rattle.station.specs.Papers.{IsChangeTo};
ghost use Rattle.station.specs.declared.sizes.TheConstants.{NOTICE_OCTETS};
ghost use Rattle.station.specs.Peers.{till_off, with_notices};

use crate::paper::Paper;
use crate::slots::Slots;
use conversation::{Asks, ask, fill};
use site_base::{Actor, Event, FpNo, NoRow, Reply, Row, SignChange, TillNo, sign_change};
use site_book::SiteBook;

/// The book as one peer's messages ask it: the other peers are notified of its rows.
#[derive(Drop)]
pub(crate) struct AtStation<'a> {
    pub(crate) book: &'a mut SiteBook,
    pub(crate) others: &'a mut Slots,
    pub(crate) paper: &'a mut Paper,
}

impl<'a> Asks for AtStation<'a> {
    ghost use Rattle.std.specs.Prelude.{ℕ};
    ghost use Rattle.conversation.specs.Lending.{Lent};
    ghost use Rattle.station.specs.Hearing.{Among, IsAskedAmong, among};

    ghost Seen = { Among × (ℕ × ℕ) };

    ghost seen = { λ l. (
      among l.book.now l.others.now,
      (l.book.ghost_name, l.others.ghost_name),
    ) };

    ghost asked = { Lent IsAskedAmong };

    fn ask(&mut self, row: &mut Row) -> Result<(), NoRow> {
        let outcome = ask_among(self.book, self.others, self.paper, row.actor, row.event);
        fill(row, &outcome)
    }
}

/// Asks the book for a request. Where its row has a change, each of these peers that listens at the
/// point is told it. The change is written first: without memory for that there is no row.
pub(crate) fn ask_among(
    book: &mut SiteBook,
    others: &mut Slots,
    paper: &mut Paper,
    actor: Actor,
    event: Event,
) -> Result<Reply, NoRow>
    ensures asked { IsAskedOf book.old actor event result book.new }
    ensures others { others.new
        ≡ with_notices (row_made actor event result) others.old }
{
    match event.point() {
        None => ask_pointless(book, others, actor, event),
        Some(p) => ask_at(book, others, paper, &actor, &event, p),
    }
}

/// Asks the book for a request at no point. The sessions that had signed on a till that it signs
/// off forget that.
fn ask_pointless(
    book: &mut SiteBook,
    others: &mut Slots,
    actor: Actor,
    event: Event,
) -> Result<Reply, NoRow>
    requires pointless { point_named event ≡ None }
    ensures asked { IsAskedOf book.old actor event result book.new }
    ensures others { others.new
        ≡ with_notices (row_made actor event result) others.old }
{
    let outcome = ask(book, actor, event);
    forget_signed_off(others, &actor, &event, &outcome);
    outcome
}

/// The sessions that had signed on a till that a request at no point signs off, if it does, forget
/// that.
fn forget_signed_off(
    others: &mut Slots,
    actor: &Actor,
    event: &Event,
    outcome: &Result<Reply, NoRow>,
)
    requires pointless { point_named event.now ≡ None }
    ensures { others.new
        ≡ with_notices (row_made actor.now event.now outcome.now) others.old }
{
    if let Some(till) = till_off(actor, event, outcome) {
        others.forget_till(till);
    }
}

/// The till that a request signs off, if it does.
fn till_off(actor: &Actor, event: &Event, outcome: &Result<Reply, NoRow>) -> Option<TillNo>
    ensures { result ≡ till_off (sign_change_by actor.now event.now outcome.now) }
{
    let Ok(reply) = outcome else { return None };
    match &sign_change(actor, event, reply) {
        Some(SignChange::Off(till)) => Some(*till),
        _ => None,
    }
}

/// Asks the book for a request at a point.
fn ask_at(
    book: &mut SiteBook,
    others: &mut Slots,
    paper: &mut Paper,
    actor: &Actor,
    event: &Event,
    p: FpNo,
) -> Result<Reply, NoRow>
    requires point { point_named event.now ≡ Some p }
    ensures asked { IsAskedOf book.old actor.now event.now result book.new }
    ensures others { others.new
        ≡ with_notices (row_made actor.now event.now result) others.old }
{
    match paper.write_change(p, *event)? {
        None => ask(book, *actor, *event),
        Some(node) => ask_telling(book, others, &node, &paper.notice, *actor, *event),
    }
}

/// Asks the book for a request whose row, if it is accepted, has this notice, to this node.
fn ask_telling(
    book: &mut SiteBook,
    others: &mut Slots,
    node: &[u8; 2],
    notice: &[u8],
    actor: Actor,
    event: Event,
) -> Result<Reply, NoRow>
    requires change { IsChangeTo (change_by event) (Some node.now) notice.now }
    requires short { length notice.now ≤ NOTICE_OCTETS }
    ensures asked { IsAskedOf book.old actor event result book.new }
    ensures others { others.new
        ≡ with_notices (row_made actor event result) others.old }
{
    let outcome = ask(book, actor, event);
    notice_accepted(others, *node, notice, &actor, &event, &outcome);
    outcome
}

/// Tells a notice to each peer that listens at this node, where the request was accepted.
fn notice_accepted(
    others: &mut Slots,
    node: [u8; 2],
    notice: &[u8],
    actor: &Actor,
    event: &Event,
    outcome: &Result<Reply, NoRow>,
)
    requires change { IsChangeTo (change_by event.now) (Some node) notice.now }
    requires short { length notice.now ≤ NOTICE_OCTETS }
    ensures { others.new
        ≡ with_notices (row_made actor.now event.now outcome.now) others.old }
{
    match outcome {
        Ok(reply) => match reply {
            Ok(_) => others.notice_all(node, notice),
            Err(_) => {}
        },
        Err(_) => {}
    }
}
