//! What a till or a dispenser asks of the site.

ghost use Rattle.std.specs.Prelude.{◌≡◌, ◌≤◌, IfSome};
ghost use Rattle.site_base.specs.declared.amounts.TheConstants.{GREATEST_READING};
ghost use Rattle.site_base.specs.Events.{point_named, nozzle_named, sale_named, product_named};
ghost use Rattle.site_base.specs.Events.{reading_carried};
ghost use Rattle.site_base.specs.Events.{reported_by, needs_free_point, needs_manager, has_change};

use crate::amounts::Millilitres;
use crate::numbers::{FpNo, NozzleNo, ProductNo};
use crate::sale::SaleId;
use crate::state::Preset;

/// One event of the site: one atomic step of one actor.
#[derive(Clone, Copy, Debug, PartialEq, Eq)]
pub enum Event {
    /// The till signs on.
    SignOn,
    /// The till signs off. Its locked transactions are payable again, and its holds of points that
    /// are closed, idle or calling end. A hold of any other point stays.
    SignOff,
    /// Opens a closed fuelling point, which is then idle.
    Open(FpNo),
    /// Closes an idle fuelling point.
    Close(FpNo),
    /// The till takes the hold of a fuelling point that no other till holds.
    Assign(FpNo),
    /// The till gives back its hold of a fuelling point.
    Unassign(FpNo),
    /// The till takes the hold of a fuelling point and releases it for one fuelling, within this
    /// preset.
    Release(FpNo, Preset),
    /// The till takes the hold of a fuelling point and releases it for one fuelling that is
    /// prepaid, within these cents.
    Prepay(FpNo, u32),
    /// A manager takes the hold of a fuelling point and releases it for a test, whose fuel goes
    /// back to the tank.
    TestRelease(FpNo),
    /// Suspends the fuelling at a point.
    Suspend(FpNo),
    /// Continues the suspended fuelling at a point.
    Resume(FpNo),
    /// Takes back the release of a point, or ends its fuelling, which is suspended until hang up. A
    /// manager may do so whoever holds the point.
    Terminate(FpNo),
    /// A manager notes that a nozzle's meter was replaced by one that begins with this reading.
    ReplaceMeter(FpNo, NozzleNo, Millilitres),
    /// Reads a fuelling point; changes nothing.
    ReadPoint(FpNo),
    /// The till locks a transaction of a fuelling point, so that no other till can clear it.
    Lock(FpNo, SaleId),
    /// The till makes a transaction that it has locked payable again.
    Unlock(FpNo, SaleId),
    /// The till clears a transaction that it has locked: it is paid, and counts in the open shift.
    Clear(FpNo, SaleId),
    /// Reads a transaction of a fuelling point; changes nothing.
    ReadTransaction(FpNo, SaleId),
    /// A manager gives a product this price, in mills per litre. A fuelling in progress keeps the
    /// price that it took.
    SetPrice(ProductNo, u32),
    /// Reads a product; changes nothing.
    ReadProduct(ProductNo),
    /// A manager closes the open shift, and the next one is open.
    CloseShift,
    /// Reads the site; changes nothing.
    ReadSite,
    /// The dispenser of the point is reached.
    Online(FpNo),
    /// The dispenser of the point isn't reached any more. A fuelling in progress is over.
    Offline(FpNo),
    /// The nozzle of the point is taken out, and its meter reads this.
    Lift(FpNo, NozzleNo, Millilitres),
    /// Fuel may have flowed through the nozzle of the point, whose meter reads this.
    Flow(FpNo, NozzleNo, Millilitres),
    /// The nozzle of the point is put back, and its meter reads this. A fuelling in progress is
    /// over.
    HangUp(FpNo, NozzleNo, Millilitres),
}

impl Event {
    /// Returns the fuelling point that the event names, if it names one.
    pub fn point(&self) -> Option<FpNo>
        ensures { result ≡ point_named self.now }
    {
        match self {
            Event::SignOn | Event::SignOff | Event::CloseShift | Event::ReadSite => None,
            Event::Open(p) => Some(*p),
            Event::Close(p) => Some(*p),
            Event::Assign(p) => Some(*p),
            Event::Unassign(p) => Some(*p),
            Event::Release(p, _) => Some(*p),
            Event::Prepay(p, _) => Some(*p),
            Event::TestRelease(p) => Some(*p),
            Event::Suspend(p) => Some(*p),
            Event::Resume(p) => Some(*p),
            Event::Terminate(p) => Some(*p),
            Event::ReplaceMeter(p, _, _) => Some(*p),
            Event::ReadPoint(p) => Some(*p),
            Event::Lock(p, _) => Some(*p),
            Event::Unlock(p, _) => Some(*p),
            Event::Clear(p, _) => Some(*p),
            Event::ReadTransaction(p, _) => Some(*p),
            Event::SetPrice(_, _) => None,
            Event::ReadProduct(_) => None,
            Event::Online(p) => Some(*p),
            Event::Offline(p) => Some(*p),
            Event::Lift(p, _, _) => Some(*p),
            Event::Flow(p, _, _) => Some(*p),
            Event::HangUp(p, _, _) => Some(*p),
        }
    }

    /// Returns the nozzle of that point that the event names, if it names one.
    pub fn nozzle(&self) -> Option<NozzleNo>
        ensures { result ≡ nozzle_named self.now }
    {
        match self {
            Event::ReplaceMeter(_, n, _) => Some(*n),
            Event::Lift(_, n, _) => Some(*n),
            Event::Flow(_, n, _) => Some(*n),
            Event::HangUp(_, n, _) => Some(*n),
            _ => None,
        }
    }

    /// Returns the transaction of that point that the event names, if it names one.
    pub fn sale(&self) -> Option<SaleId>
        ensures { result ≡ sale_named self.now }
    {
        match self {
            Event::Lock(_, s) => Some(*s),
            Event::Unlock(_, s) => Some(*s),
            Event::Clear(_, s) => Some(*s),
            Event::ReadTransaction(_, s) => Some(*s),
            _ => None,
        }
    }

    /// Returns the product that the event names, if it names one.
    pub fn product(&self) -> Option<ProductNo>
        ensures { result ≡ product_named self.now }
    {
        match self {
            Event::SetPrice(q, _) => Some(*q),
            Event::ReadProduct(q) => Some(*q),
            _ => None,
        }
    }

    /// Returns the reading of a meter that the event carries, if it carries one. It is one that a
    /// meter can show.
    pub fn reading(&self) -> Option<Millilitres>
        ensures reading { result ≡ reading_carried self.now }
        ensures range { IfSome (reading_carried self.now) (λ reading. reading ≤ GREATEST_READING) }
    {
        let carried = match self {
            Event::ReplaceMeter(_, _, reading) => *reading,
            Event::Lift(_, _, reading) => *reading,
            Event::Flow(_, _, reading) => *reading,
            Event::HangUp(_, _, reading) => *reading,
            _ => return None,
        };
        let _ = carried.get();
        Some(carried)
    }

    /// Returns the point whose dispenser reports the event; None for what a till asks.
    pub fn reported_by(&self) -> Option<FpNo>
        ensures { result ≡ reported_by self.now }
    {
        match self {
            Event::Online(p) => Some(*p),
            Event::Offline(p) => Some(*p),
            Event::Lift(p, _, _) => Some(*p),
            Event::Flow(p, _, _) => Some(*p),
            Event::HangUp(p, _, _) => Some(*p),
            _ => None,
        }
    }

    /// Is the event for a point that no other till holds?
    pub fn needs_free_point(&self) -> bool
        ensures { result ≡ needs_free_point self.now }
    {
        matches!(
            self,
            Event::Open(_)
                | Event::Close(_)
                | Event::Assign(_)
                | Event::Unassign(_)
                | Event::Release(_, _)
                | Event::Prepay(_, _)
                | Event::TestRelease(_)
                | Event::Resume(_)
                | Event::Terminate(_)
        )
    }

    /// Is the event only for managers?
    pub fn needs_manager(&self) -> bool
        ensures { result ≡ needs_manager self.now }
    {
        matches!(
            self,
            Event::TestRelease(_)
                | Event::ReplaceMeter(_, _, _)
                | Event::SetPrice(_, _)
                | Event::CloseShift
        )
    }

    /// Is the event, once accepted, a change of which the dispenser of its point gets a notice?
    pub fn has_change(&self) -> bool
        ensures { result ≡ has_change self.now }
    {
        matches!(
            self,
            Event::Open(_)
                | Event::Close(_)
                | Event::Release(_, _)
                | Event::Prepay(_, _)
                | Event::TestRelease(_)
                | Event::Suspend(_)
                | Event::Resume(_)
                | Event::Terminate(_)
        )
    }
}
