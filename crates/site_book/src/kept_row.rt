//! A row as a list of rows keeps it. Most octets of a plain row are the six figures of a product
//! that a read may answer with. Here these are in a list beside the rows, and the parts of every
//! other answer fill the octets after its case.

ghost use Rattle.std.specs.Prelude.{◌≡◌, length, option_to_list, slice_index_or, true};
ghost use Rattle.site_book.specs.KeptRows.{figures_of, figures_in_reply, is_within, kept_point};
ghost use Rattle.site_book.specs.KeptRows.{kept_reply, kept_row, kept_transaction, no_figures};
ghost use Rattle.site_book.specs.KeptRows.{point_marked, product_shown, reply_of_kept};
ghost use Rattle.site_book.specs.KeptRows.{row_of_kept, sale_marked};

use site_base::{
    Actor, Answer, Cents, Event, Millilitres, Mills, NozzleNo, PointState, PointView, Preset,
    ProductNo, ProductView, Refusal, Reply, Row, Seq, ShiftNo, SiteView, Status, TillNo,
    TransactionView,
};
use std::marker::Model;
use std::mem::size_of;

// A book keeps up to a million rows.
const _: () = prove!(size_of::<KeptRow>() <= 64);

/// The figures of a product, in millilitres.
#[derive(Clone, Copy)]
pub struct Figures {
    pub metered: u64,
    pub running: u64,
    pub payable: u64,
    pub locked: u64,
    pub cleared: u64,
    pub adjusted: u64,
}

/// The parts of a point's view that take an octet or two.
#[derive(Clone, Copy)]
pub struct PointMarks {
    state: PointState,
    out: Option<NozzleNo>,
    holder: Option<TillNo>,
    ending: bool,
    test: bool,
}

/// The parts of a transaction's view that take an octet or two.
#[derive(Clone, Copy)]
pub struct SaleMarks {
    status: Status,
    till: Option<TillNo>,
    product: ProductNo,
}

/// A reply as it is kept.
#[derive(Clone, Copy)]
pub enum KeptReply {
    Refused(Refusal),
    Done,
    Calling,
    Start {
        preset: Preset,
        price: Mills,
    },
    Flowed(u64),
    HungUp,
    NoSale,
    Sold {
        seq: Seq,
        growth: u64,
    },
    Stopped,
    Ending,
    Locked,
    Unlocked,
    Cleared(Cents),
    ShiftClosed(ShiftNo),
    Drawn(u64),
    PointIs {
        marks: PointMarks,
        preset: Preset,
        prepaid: Option<u32>,
        price: u32,
        volume: u64,
    },
    TransactionIs {
        marks: SaleMarks,
        price: Mills,
        prepaid: Option<u32>,
        volume: Millilitres,
        cents: Cents,
    },
    /// The figures are at this place, counted from 0.
    ProductIs {
        price: Mills,
        at: usize,
    },
    SiteIs(SiteView),
}

/// A row as it is kept.
#[derive(Clone, Copy, Drop)]
pub struct KeptRow {
    actor: Actor,
    event: Event,
    reply: KeptReply,
}

impl Model for KeptRow {
    ghost use Rattle.site_book.specs.KeptRows.{RowFacts};

    ghost Value = { RowFacts };

    ghost view = { λ k. record { actor = k.actor; event = k.event; reply = k.reply } };

    ghost inverse = { λ f. record { actor = f.actor; event = f.event; reply = f.reply } };
}

impl KeptRow {
    /// Returns the row as it is kept. Its figures, if it has any, are at this place.
    #[inline(always)]
    pub fn new(row: &Row, at: usize) -> KeptRow
        ensures { result ≡ kept_row at row.now }
    {
        KeptRow {
            actor: row.actor,
            event: row.event,
            reply: keep(&row.reply, at),
        }
    }

    /// Returns the row. Its figures, if it has any, are among these.
    pub fn row(&self, figures: &[Figures]) -> Row
        requires { is_within (length figures.now) self.now.reply ≡ true }
        ensures { result ≡ row_of_kept figures.now self.now }
    {
        Row {
            actor: self.actor,
            event: self.event,
            reply: tell(&self.reply, figures),
        }
    }
}

impl Figures {
    /// A product with this price and these figures.
    fn view(&self, price: Mills) -> ProductView
        ensures { result ≡ product_shown price self.now }
    {
        ProductView {
            price,
            metered: self.metered,
            running: self.running,
            payable: self.payable,
            locked: self.locked,
            cleared: self.cleared,
            adjusted: self.adjusted,
        }
    }
}

impl PointMarks {
    /// A point with these marks and these further parts.
    fn view(&self, preset: Preset, prepaid: Option<u32>, price: u32, volume: u64) -> PointView
        ensures { result ≡ point_marked self.now preset prepaid price volume }
    {
        PointView {
            state: self.state,
            out: self.out,
            holder: self.holder,
            ending: self.ending,
            test: self.test,
            preset,
            prepaid,
            price,
            volume,
        }
    }
}

impl SaleMarks {
    /// A transaction with these marks and these further parts.
    fn view(
        &self,
        price: Mills,
        prepaid: Option<u32>,
        volume: Millilitres,
        cents: Cents,
    ) -> TransactionView
        ensures { result ≡ sale_marked self.now price prepaid volume cents }
    {
        TransactionView {
            price,
            volume,
            cents,
            prepaid,
            status: self.status,
            till: self.till,
            product: self.product,
        }
    }
}

/// Returns the figures of the product that a reply answers with, if it does.
pub fn figures_in_reply(reply: &Reply) -> Option<Figures>
    ensures { option_to_list result ≡ figures_in_reply reply.now }
{
    match reply {
        Ok(Answer::ProductIs(view)) => Some(Figures {
            metered: view.metered,
            running: view.running,
            payable: view.payable,
            locked: view.locked,
            cleared: view.cleared,
            adjusted: view.adjusted,
        }),
        _ => None,
    }
}

/// A reply, as it is kept where its figures, if it has any, stand at this place.
#[inline(always)]
fn keep(reply: &Reply, at: usize) -> KeptReply
    ensures { result ≡ kept_reply at reply.now }
{
    match *reply {
        Err(refusal) => KeptReply::Refused(refusal),
        Ok(Answer::Done) => KeptReply::Done,
        Ok(Answer::Calling) => KeptReply::Calling,
        Ok(Answer::Start { preset, price }) => KeptReply::Start { preset, price },
        Ok(Answer::Flowed(growth)) => KeptReply::Flowed(growth),
        Ok(Answer::HungUp) => KeptReply::HungUp,
        Ok(Answer::NoSale) => KeptReply::NoSale,
        Ok(Answer::Sold { seq, growth }) => KeptReply::Sold { seq, growth },
        Ok(Answer::Stopped) => KeptReply::Stopped,
        Ok(Answer::Ending) => KeptReply::Ending,
        Ok(Answer::Locked) => KeptReply::Locked,
        Ok(Answer::Unlocked) => KeptReply::Unlocked,
        Ok(Answer::Cleared(cents)) => KeptReply::Cleared(cents),
        Ok(Answer::ShiftClosed(shift)) => KeptReply::ShiftClosed(shift),
        Ok(Answer::Drawn { growth }) => KeptReply::Drawn(growth),
        Ok(Answer::PointIs(view)) => keep_point(&view),
        Ok(Answer::TransactionIs(view)) => keep_transaction(&view),
        Ok(Answer::ProductIs(view)) => KeptReply::ProductIs {
            price: view.price,
            at,
        },
        Ok(Answer::SiteIs(view)) => KeptReply::SiteIs(view),
    }
}

fn keep_point(view: &PointView) -> KeptReply
    ensures { result ≡ kept_point view.now }
{
    KeptReply::PointIs {
        marks: PointMarks {
            state: view.state,
            out: view.out,
            holder: view.holder,
            ending: view.ending,
            test: view.test,
        },
        preset: view.preset,
        prepaid: view.prepaid,
        price: view.price,
        volume: view.volume,
    }
}

fn keep_transaction(view: &TransactionView) -> KeptReply
    ensures { result ≡ kept_transaction view.now }
{
    KeptReply::TransactionIs {
        marks: SaleMarks {
            status: view.status,
            till: view.till,
            product: view.product,
        },
        price: view.price,
        prepaid: view.prepaid,
        volume: view.volume,
        cents: view.cents,
    }
}

/// The reply that is kept so, whose figures, if it has any, are among these.
fn tell(reply: &KeptReply, figures: &[Figures]) -> Reply
    requires { is_within (length figures.now) reply.now ≡ true }
    ensures { result ≡ reply_of_kept figures.now reply.now }
{
    match *reply {
        KeptReply::Refused(refusal) => Err(refusal),
        KeptReply::Done => Ok(Answer::Done),
        KeptReply::Calling => Ok(Answer::Calling),
        KeptReply::Start { preset, price } => Ok(Answer::Start { preset, price }),
        KeptReply::Flowed(growth) => Ok(Answer::Flowed(growth)),
        KeptReply::HungUp => Ok(Answer::HungUp),
        KeptReply::NoSale => Ok(Answer::NoSale),
        KeptReply::Sold { seq, growth } => Ok(Answer::Sold { seq, growth }),
        KeptReply::Stopped => Ok(Answer::Stopped),
        KeptReply::Ending => Ok(Answer::Ending),
        KeptReply::Locked => Ok(Answer::Locked),
        KeptReply::Unlocked => Ok(Answer::Unlocked),
        KeptReply::Cleared(cents) => Ok(Answer::Cleared(cents)),
        KeptReply::ShiftClosed(shift) => Ok(Answer::ShiftClosed(shift)),
        KeptReply::Drawn(growth) => Ok(Answer::Drawn { growth }),
        KeptReply::PointIs {
            marks,
            preset,
            prepaid,
            price,
            volume,
        } => Ok(Answer::PointIs(marks.view(preset, prepaid, price, volume))),
        KeptReply::TransactionIs {
            marks,
            price,
            prepaid,
            volume,
            cents,
        } => Ok(Answer::TransactionIs(marks.view(price, prepaid, volume, cents))),
        KeptReply::ProductIs { price, at } => Ok(Answer::ProductIs(figures[at].view(price))),
        KeptReply::SiteIs(view) => Ok(Answer::SiteIs(view)),
    }
}
