//! What the site keeps, and its step: `check` finds the first refusal or returns a `Ready`, and
//! `perform` does what that says.

ghost use Rattle.std.specs.Prelude.{◌≡◌, ℕ, ◌≤◌, IfOk, OnOk, OnErr};
ghost use Rattle.transaction_buffer.specs.Rooms.{room_at};
ghost use Rattle.written_site.specs.SiteState.{opening, is_signed_on};
ghost use Rattle.written_site.specs.SiteStep.{Steps};
ghost use Rattle.written_site.specs.Sound.{Sound};
ghost use Rattle.site_core.specs.SiteParts.{site_of, room_of};
ghost use Rattle.site_core.specs.Views.{HasRoom, room_left};

use crate::accounts::Accounts;
use crate::points::Points;
use crate::tills::Tills;
use fuelling_point::Claims;
use meters::Meters;
use site_base::{Actor, Event, NoMemory, PriceBook, Reply, SiteConfig, TillNo};
use std::alloc::Global;

/// The points, their nozzles' meters, which till holds which point, the prices, the tills that are
/// managers and those that are signed on, and the sales with the figures of the shifts.
#[derive(Drop)]
pub struct SiteParts {
    pub(crate) points: Points,
    pub(crate) meters: Meters,
    pub(crate) claims: Claims,
    pub(crate) prices: PriceBook,
    pub(crate) managers: Tills,
    pub(crate) signed_on: Tills,
    pub(crate) accounts: Accounts,
}

impl SiteParts {
    /// Returns what the opening site keeps.
    pub fn try_open(alloc: Global, config: &SiteConfig) -> Result<SiteParts, NoMemory>
        ensures { IfOk result (λ parts. site_of parts ≡ opening config.now) }
    {
        let points = Points::try_new(alloc, config.points())?;
        let meters = Meters::try_new(alloc, config)?;
        let prices = PriceBook::try_new(alloc, config)?;
        Ok(SiteParts {
            points,
            meters,
            claims: Claims::new(),
            prices,
            managers: Tills::from_list(config.managers()),
            signed_on: Tills::new(),
            accounts: Accounts::new(alloc),
        })
    }

    /// Makes the room that the event needs.
    #[inline(always)]
    pub fn prepare(&mut self, event: &Event) -> Result<(), NoMemory>
        ensures site { site_of self.new ≡ site_of self.old }
        ensures room { OnOk result (HasRoom (room_of self.new) event.now) }
        ensures kept { (p : ℕ)
            → room_at p (room_of self.old).sales ≤ room_at p (room_of self.new).sales }
        ensures kept_close { (room_of self.old).closes ≤ (room_of self.new).closes }
        ensures err { OnErr result (room_of self.new ≡ room_of self.old) }
    {
        match event {
            Event::CloseShift => self.accounts.reserve_close(),
            Event::Offline(p) => self.accounts.reserve(*p),
            Event::HangUp(p, _, _) => self.accounts.reserve(*p),
            _ => Ok(()),
        }
    }

    /// Takes the written step: the first refusal, or what the event changes.
    #[inline(always)]
    pub fn step(&mut self, actor: Actor, event: &Event) -> Reply
        requires sound { Sound (site_of self.old) }
        requires room { HasRoom (room_of self.old) event.now }
        ensures steps { Steps (site_of self.old) actor event.now (site_of self.new) result }
        ensures room { room_of self.new ≡ room_left event.now result (room_of self.old) }
    {
        match &self.check(actor, event) {
            Ok(ready) => Ok(self.perform(ready)),
            Err(refusal) => Err(*refusal),
        }
    }

    /// Is this till signed on?
    pub fn is_signed_on(&self, t: TillNo) -> bool
        ensures { result ≡ is_signed_on (site_of self.now) t }
    {
        self.signed_on.contains(t)
    }
}
