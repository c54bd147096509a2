//! The words in which actors, events, answers, refusals and rows are written, for people and for
//! tables of cases: one grammar for all, which docs/PROGRAM.md explains.

ghost use Rattle.std.specs.Prelude.{Some, [], ◌∷◌, decimal};
ghost use Rattle.std.specs.Fmt.{DisplaysOnOk};
ghost use Rattle.site_base.specs.Words.{actor_word, at_sale, event_words, id_word, nozzle_words};
ghost use Rattle.site_base.specs.Words.{number_words};
ghost use Rattle.site_base.specs.Words.{join_words};

use crate::actor::Actor;
use crate::amounts::Millilitres;
use crate::answer::Answer;
use crate::event::Event;
use crate::number_meaning::NumberMeaning;
use crate::numbers::{FpNo, NozzleNo};
use crate::refusal::Refusal;
use crate::row::{Reply, Row};
use crate::sale::SaleId;
use crate::state::{PointState, Preset, Status};
use crate::view::{PointView, ProductView, SiteView, TransactionView};
use std::fmt;

/// `t1` is till 1, `d3` the dispenser of fuelling point 3.
impl fmt::Display for Actor {
    ghost output = { λ actor. Some (actor_word actor) };

    fn fmt<W: fmt::Write>(&self, f: &mut fmt::Formatter<W>) -> fmt::Result {
        match self {
            Actor::Till(till) => write!(f, "t{}", till.get()),
            Actor::Dispenser(point) => write!(f, "d{}", point.get()),
        }
    }
}

/// The event's name, the number of what it is about, and what else it carries: `Open 3`,
/// `Release 3 volume 3000`, `Prepay 1 2000`, `Lift 2 1@1000`, `ReadTransaction 3/2/1`.
impl fmt::Display for Event {
    ghost output = { λ event. Some (join_words (event_words event)) };

    fn fmt<W: fmt::Write>(&self, f: &mut fmt::Formatter<W>) -> fmt::Result {
        match self {
            Event::SignOn => f.write_str("SignOn"),
            Event::SignOff => f.write_str("SignOff"),
            Event::Open(p) => write_named(f, "Open", p.get()),
            Event::Close(p) => write_named(f, "Close", p.get()),
            Event::Assign(p) => write_named(f, "Assign", p.get()),
            Event::Unassign(p) => write_named(f, "Unassign", p.get()),
            Event::Release(p, preset) => write_release(f, *p, *preset),
            Event::Prepay(p, cents) => write_amount(f, "Prepay", p.get(), *cents),
            Event::TestRelease(p) => write_named(f, "TestRelease", p.get()),
            Event::Suspend(p) => write_named(f, "Suspend", p.get()),
            Event::Resume(p) => write_named(f, "Resume", p.get()),
            Event::Terminate(p) => write_named(f, "Terminate", p.get()),
            Event::ReplaceMeter(p, n, r) => write_meter(f, "ReplaceMeter", *p, *n, *r),
            Event::ReadPoint(p) => write_named(f, "ReadPoint", p.get()),
            Event::Lock(p, s) => write_sale(f, "Lock", *p, *s),
            Event::Unlock(p, s) => write_sale(f, "Unlock", *p, *s),
            Event::Clear(p, s) => write_sale(f, "Clear", *p, *s),
            Event::ReadTransaction(p, s) => write_sale(f, "ReadTransaction", *p, *s),
            Event::SetPrice(q, mills) => write_amount(f, "SetPrice", q.get(), *mills),
            Event::ReadProduct(q) => write_named(f, "ReadProduct", q.get()),
            Event::CloseShift => f.write_str("CloseShift"),
            Event::ReadSite => f.write_str("ReadSite"),
            Event::Online(p) => write_named(f, "Online", p.get()),
            Event::Offline(p) => write_named(f, "Offline", p.get()),
            Event::Lift(p, n, r) => write_meter(f, "Lift", *p, *n, *r),
            Event::Flow(p, n, r) => write_meter(f, "Flow", *p, *n, *r),
            Event::HangUp(p, n, r) => write_meter(f, "HangUp", *p, *n, *r),
        }
    }
}

/// An event of this name, and the number of what it is about: `Open 3`.
fn write_named<W: fmt::Write>(f: &mut fmt::Formatter<W>, name: &str, n: u8) -> fmt::Result
    ensures { DisplaysOnOk W.Write.write_str_gives f.old result
        (Some (join_words (number_words name.now n))) f.new }
{
    write!(f, "{name} {n}")
}

/// An event of this name with an amount: `Prepay 1 2000`.
fn write_amount<W: fmt::Write>(
    f: &mut fmt::Formatter<W>,
    name: &str,
    n: u8,
    amount: u32,
) -> fmt::Result
    ensures { DisplaysOnOk W.Write.write_str_gives f.old result
        (Some (join_words (name.now ∷ decimal n ∷ decimal amount ∷ []))) f.new }
{
    write!(f, "{name} {n} {amount}")
}

/// A release, with its preset where it has one: `Release 3`, `Release 3 money 2000`.
fn write_release<W: fmt::Write>(f: &mut fmt::Formatter<W>, p: FpNo, preset: Preset) -> fmt::Result
    ensures { DisplaysOnOk W.Write.write_str_gives f.old result
        (Some (join_words (event_words (Event.Release p preset)))) f.new }
{
    let p = p.get();
    match preset {
        Preset::Unset => write!(f, "Release {p}"),
        Preset::Volume(millilitres) => write!(f, "Release {p} volume {millilitres}"),
        Preset::Money(cents) => write!(f, "Release {p} money {cents}"),
    }
}

/// An event of this name at a nozzle's meter, which reads so much: `Lift 1 2@1000`.
fn write_meter<W: fmt::Write>(
    f: &mut fmt::Formatter<W>,
    name: &str,
    p: FpNo,
    n: NozzleNo,
    reading: Millilitres,
) -> fmt::Result
    ensures { DisplaysOnOk W.Write.write_str_gives f.old result
        (Some (join_words (nozzle_words name.now p n reading))) f.new }
{
    let (p, n, reading) = (p.get(), n.get(), reading.get());
    write!(f, "{name} {p} {n}@{reading}")
}

/// An event of this name at a transaction of a point: `Lock 3/1`, `Lock 3/2/1`.
fn write_sale<W: fmt::Write>(
    f: &mut fmt::Formatter<W>,
    name: &str,
    p: FpNo,
    sale: SaleId,
) -> fmt::Result
    ensures { DisplaysOnOk W.Write.write_str_gives f.old result
        (Some (join_words (at_sale name.now p sale))) f.new }
{
    let p = p.get();
    write!(f, "{name} {p}/{sale}")
}

/// A sale's number, behind that of its shift where one is named: `1`, `2/1`. The number of its
/// fuelling point stands before them: `3/1`, `3/2/1`.
impl fmt::Display for SaleId {
    ghost output = { λ sale. Some (id_word sale) };

    fn fmt<W: fmt::Write>(&self, f: &mut fmt::Formatter<W>) -> fmt::Result {
        let seq = self.seq.get();
        match self.shift {
            None => write!(f, "{seq}"),
            Some(shift) => write!(f, "{}/{seq}", shift.get()),
        }
    }
}

/// The state's name: `suspended started`.
impl fmt::Display for PointState {
    fn fmt<W: fmt::Write>(&self, f: &mut fmt::Formatter<W>) -> fmt::Result {
        f.write_str(match self {
            PointState::Inoperative => "inoperative",
            PointState::Closed => "closed",
            PointState::Idle => "idle",
            PointState::Calling => "calling",
            PointState::Authorised => "authorised",
            PointState::Started => "started",
            PointState::SuspendedStarted => "suspended started",
            PointState::Fuelling => "fuelling",
            PointState::SuspendedFuelling => "suspended fuelling",
        })
    }
}

/// The status' name: `payable`.
impl fmt::Display for Status {
    fn fmt<W: fmt::Write>(&self, f: &mut fmt::Formatter<W>) -> fmt::Result {
        f.write_str(match self {
            Status::Cleared => "cleared",
            Status::Payable => "payable",
            Status::Locked => "locked",
        })
    }
}

/// `Unset`, `Volume(3000)` in millilitres, or `Money(2000)` in cents.
impl fmt::Display for Preset {
    fn fmt<W: fmt::Write>(&self, f: &mut fmt::Formatter<W>) -> fmt::Result {
        match self {
            Preset::Unset => f.write_str("Unset"),
            Preset::Volume(millilitres) => write!(f, "Volume({millilitres})"),
            Preset::Money(cents) => write!(f, "Money({cents})"),
        }
    }
}

/// A point's items in the order of their identifiers, 0 for none.
impl fmt::Display for PointView {
    fn fmt<W: fmt::Write>(&self, f: &mut fmt::Formatter<W>) -> fmt::Result {
        let out = self.out.map_or(0, |nozzle| nozzle.get());
        let holder = self.holder.map_or(0, |till| till.get());
        let prepaid = self.prepaid.unwrap_or(0);
        write!(f, "{}, out {}, holder {}, ", self.state, out, holder)?;
        write!(
            f,
            "ending {}, test {}, ",
            u8::from(self.ending),
            u8::from(self.test)
        )?;
        write!(f, "preset {}, price {}, ", self.preset, self.price)?;
        write!(f, "volume {}, prepaid {}", self.volume, prepaid)
    }
}

/// A transaction's items in the order of their identifiers, 0 for none.
impl fmt::Display for TransactionView {
    fn fmt<W: fmt::Write>(&self, f: &mut fmt::Formatter<W>) -> fmt::Result {
        let till = self.till.map_or(0, |till| till.get());
        let prepaid = self.prepaid.unwrap_or(0);
        write!(
            f,
            "price {}, volume {}, ",
            self.price.get(),
            self.volume.get()
        )?;
        write!(f, "cents {}, prepaid {}, ", self.cents.get(), prepaid)?;
        write!(f, "{}, till {}, ", self.status, till)?;
        write!(f, "product {}", self.product.get())
    }
}

/// A product's items in the order of their identifiers.
impl fmt::Display for ProductView {
    fn fmt<W: fmt::Write>(&self, f: &mut fmt::Formatter<W>) -> fmt::Result {
        write!(f, "price {}, metered {}, ", self.price.get(), self.metered)?;
        write!(f, "running {}, payable {}, ", self.running, self.payable)?;
        write!(f, "locked {}, cleared {}, ", self.locked, self.cleared)?;
        write!(f, "adjusted {}", self.adjusted)
    }
}

/// The site's items in the order of their identifiers.
impl fmt::Display for SiteView {
    fn fmt<W: fmt::Write>(&self, f: &mut fmt::Formatter<W>) -> fmt::Result {
        write!(f, "cents {}, shift {}", self.cents, self.shift.get())
    }
}

/// The answer's name, and what it carries: `Done`, `Sold{1, 10000}`, `Cleared(1500)`.
impl fmt::Display for Answer {
    fn fmt<W: fmt::Write>(&self, f: &mut fmt::Formatter<W>) -> fmt::Result {
        match self {
            Answer::Done => f.write_str("Done"),
            Answer::Calling => f.write_str("Calling"),
            Answer::Start { preset, price } => write!(f, "Start{{{}, {}}}", preset, price.get()),
            Answer::Flowed(growth) => write!(f, "Flowed({growth})"),
            Answer::HungUp => f.write_str("HungUp"),
            Answer::NoSale => f.write_str("NoSale"),
            Answer::Sold { seq, growth } => write!(f, "Sold{{{}, {}}}", seq.get(), growth),
            Answer::Stopped => f.write_str("Stopped"),
            Answer::Ending => f.write_str("Ending"),
            Answer::Locked => f.write_str("Locked"),
            Answer::Unlocked => f.write_str("Unlocked"),
            Answer::Cleared(cents) => write!(f, "Cleared({})", cents.get()),
            Answer::ShiftClosed(shift) => write!(f, "ShiftClosed({})", shift.get()),
            Answer::Drawn { growth } => write!(f, "Drawn{{{growth}}}"),
            Answer::PointIs(view) => write!(f, "PointIs{{{view}}}"),
            Answer::TransactionIs(view) => write!(f, "TransactionIs{{{view}}}"),
            Answer::ProductIs(view) => write!(f, "ProductIs{{{view}}}"),
            Answer::SiteIs(view) => write!(f, "SiteIs{{{view}}}"),
        }
    }
}

/// The refusal's number, its name, and the detail that it carries: `11 AssignedToOther(2)`.
impl fmt::Display for Refusal {
    fn fmt<W: fmt::Write>(&self, f: &mut fmt::Formatter<W>) -> fmt::Result {
        let number = self.number();
        let name = NumberMeaning::of(number).map_or("", |meaning| meaning.name());
        write!(f, "{number} {name}")?;
        match (self, self.detail()) {
            (Refusal::WrongState(state), _) => write!(f, "({state})"),
            (_, Some(detail)) => write!(f, "({detail})"),
            (_, None) => Ok(()),
        }
    }
}

/// Writes a reply in words: an answer, or a refusal with its number.
pub fn write_reply<W: fmt::Write>(f: &mut fmt::Formatter<W>, reply: &Reply) -> fmt::Result {
    match reply {
        Ok(answer) => write!(f, "{answer}"),
        Err(refusal) => write!(f, "{refusal}"),
    }
}

/// Who asked what, and the reply: `t2 Assign 2: 11 AssignedToOther(1)`.
impl fmt::Display for Row {
    fn fmt<W: fmt::Write>(&self, f: &mut fmt::Formatter<W>) -> fmt::Result {
        write!(f, "{} {}: ", self.actor, self.event)?;
        write_reply(f, &self.reply)
    }
}
