//! The machine of one fuelling point.

ghost use Rattle.std.specs.Prelude.{◌≡◌, ℕ, ◌≤◌, ◌+◌, true, false, None, Some, is_some, unwrap_or};
ghost use Rattle.std.specs.Prelude.{MatchResult, OnOk, OnErr, IfOk, IfErr};
ghost use Rattle.site_base.specs.declared.amounts.TheConstants.{GREATEST_READING};
ghost use Rattle.site_base.specs.declared.state.PointState.TheVariants.{Closed, Started};
ghost use Rattle.fuelling_point.specs.Table.{is_listed};
ghost use Rattle.fuelling_point.specs.KeptPoints.{empty_point, point_view, FitsGrowth};
ghost use Rattle.fuelling_point.specs.KeptPoints.{is_under_way};
ghost use Rattle.fuelling_point.specs.KeptPoints.{has_nozzle_out, start_of, volume_of};
ghost use Rattle.fuelling_point.specs.Whole.{IsWhole};
ghost use Rattle.fuelling_point.specs.Fields.{suspend_state, resume_state, flow_state};
ghost use Rattle.fuelling_point.specs.PointChecks.{refusal_of, is_out};
ghost use Rattle.fuelling_point.specs.Step.{step_of, after, told_over};

use crate::delivery::Delivery;
use crate::event::PointEvent;
use crate::step::PointStep;
use crate::table::is_listed;
use site_base::{Millilitres, Mills, NozzleNo, PointState, PointView, Preset, Refusal};
use std::marker::Model;

/// One fuelling point: its state, and what it keeps from one event to the next. A lifted nozzle is
/// kept until it is put back. A preset and a prepayment, or the mark of a test, are kept from the
/// release on; the price and the start reading from the start of the fuelling on; and its volume as
/// it is reported. All of it is forgotten when the point becomes inoperative or idle.
///
/// So a nozzle is kept exactly while one is out, there is a volume exactly if fuel has flowed, only
/// a suspended fuelling is ending, a test has neither preset nor prepayment, and without a release
/// or a fuelling nothing is kept of one. That is true of every point; `view` and `judge` say so.
#[derive(Drop)]
pub struct Point {
    state: PointState,
    out: Option<NozzleNo>,
    ending: bool,
    test: bool,
    preset: Preset,
    prepaid: Option<u32>,
    delivery: Option<Delivery>,
}

impl Model for Point {
    ghost use Rattle.fuelling_point.specs.KeptPoints.{Facts};
    ghost use Rattle.fuelling_point.specs.Fields.{facts_of, AreWhole};

    ghost Value = { Facts };

    ghost view = { λ p. facts_of p.state p.out p.ending p.test p.preset p.prepaid p.delivery };

    ghost invariant = { λ p. AreWhole p.state p.out p.ending p.test p.preset p.prepaid p.delivery };
}

impl Point {
    /// Returns a closed point that keeps nothing.
    pub fn new() -> Self
        ensures closed { result ≡ empty_point Closed }
        ensures whole { IsWhole result }
    {
        Point {
            state: PointState::Closed,
            out: None,
            ending: false,
            test: false,
            preset: Preset::Unset,
            prepaid: None,
            delivery: None,
        }
    }

    /// Returns the point as a read shows it. Its holder isn't known here. Price and volume are 0
    /// unless a fuelling is in progress: started, fuelling, or either of them suspended. The volume
    /// is one that a meter can show.
    pub fn view(&self) -> PointView
        ensures view { result ≡ point_view self.now None }
        ensures whole { IsWhole self.now }
        ensures range { result.volume ≤ GREATEST_READING }
    {
        let (price, volume) = match self.delivery {
            Some(delivery) => (delivery.price.get(), delivery.volume),
            None => (0, 0),
        };
        PointView {
            state: self.state,
            out: self.out,
            holder: None,
            ending: self.ending,
            test: self.test,
            preset: self.preset,
            prepaid: self.prepaid,
            price,
            volume,
        }
    }

    /// Returns the reading of the nozzle that is out at the start of the fuelling in progress; None
    /// if there is no such fuelling.
    pub fn start(&self) -> Option<Millilitres>
        ensures { result ≡ start_of self.now }
    {
        match self.delivery {
            Some(delivery) => Some(delivery.start),
            None => None,
        }
    }

    /// Returns why `on` would refuse the event, if it would: the first of these that is true.
    /// Nothing changes.
    ///
    /// - `WrongState`: the point table doesn't list the event in the point's state.
    /// - `Ending`: the fuelling was terminated, so it is neither resumed nor terminated again.
    /// - `WrongNozzle`: another nozzle is out than the one that flows or is put back.
    pub fn judge(&self, event: &PointEvent) -> Result<(), Refusal>
        ensures accepted { OnOk result (refusal_of event.now self.now ≡ None) }
        ensures refused { IfErr result (λ refusal. refusal_of event.now self.now ≡ Some refusal) }
        ensures whole { IsWhole self.now }
    {
        if !is_listed(event, self.state) {
            return Err(Refusal::WrongState(self.state));
        }
        match event {
            PointEvent::Resume => self.judge_ending(),
            PointEvent::Terminate => self.judge_ending(),
            PointEvent::Flow { nozzle, .. } => self.judge_nozzle(*nozzle),
            PointEvent::HangUp { nozzle, .. } => self.judge_nozzle(*nozzle),
            _ => Ok(()),
        }
    }

    /// Does what the point table says of the event, and returns what it did. The refusal is that of
    /// `judge`, and leaves the point as it was. `perform` says what an accepted event does.
    ///
    /// The fuelling's volume with the event's growth has to be one that a meter can show.
    pub fn on(&mut self, event: PointEvent) -> Result<PointStep, Refusal>
        requires { FitsGrowth event self.old }
        ensures accepted { OnOk result (refusal_of event self.old ≡ None) }
        ensures step { IfOk result (λ step. step ≡ step_of event self.old) }
        ensures facts { OnOk result (self.new ≡ after event self.old) }
        ensures refused { IfErr result (λ refusal. refusal_of event self.old ≡ Some refusal) }
        ensures err { OnErr result (self.new ≡ self.old) }
    {
        self.judge(&event)?;
        Ok(self.perform(event))
    }

    /// Does what the point table says of an event that `judge` accepts, and returns what it did. A
    /// sale or a start has the values that the point had before it forgot them. A fuelling that
    /// starts takes the event's price and reading, and keeps them until it is over. A terminated
    /// fuelling takes flow until hang up or offline. If the fuelling is a test, it is drawn instead
    /// of sold.
    pub fn perform(&mut self, event: PointEvent) -> PointStep
        requires accepted { refusal_of event self.old ≡ None }
        requires fits { FitsGrowth event self.old }
        ensures step { result ≡ step_of event self.old }
        ensures facts { self.new ≡ after event self.old }
    {
        match event {
            PointEvent::Online => self.state = PointState::Closed,
            PointEvent::Offline => return self.offline(),
            PointEvent::Open => self.forget_in(PointState::Idle),
            PointEvent::Close => self.state = PointState::Closed,
            PointEvent::Assign => {}
            PointEvent::Unassign => {}
            PointEvent::Lift {
                nozzle,
                last,
                price,
            } => return self.lift(nozzle, last, price),
            PointEvent::Release {
                preset,
                prepaid,
                last,
                price,
            } => self.release(preset, prepaid, last, price),
            PointEvent::TestRelease { last, price } => {
                self.release(Preset::Unset, None, last, price);
                self.test = true;
            }
            PointEvent::ReplaceMeter => {}
            PointEvent::Suspend => self.state = suspend_state(self.state),
            PointEvent::Resume => self.state = resume_state(self.state),
            PointEvent::Terminate => return self.terminate(),
            PointEvent::Flow { growth, .. } => return self.flow(growth),
            PointEvent::HangUp { growth, .. } => return self.hang_up(growth),
        }
        PointStep::Moved
    }

    fn offline(&mut self) -> PointStep
        requires { is_listed PointEvent.Offline self.old.state ≡ true }
        ensures step { result ≡ step_of PointEvent.Offline self.old }
        ensures facts { self.new ≡ after PointEvent.Offline self.old }
    {
        let step = match self.state {
            PointState::Fuelling | PointState::SuspendedFuelling => self.finish(0),
            _ => PointStep::Moved,
        };
        self.forget_in(PointState::Inoperative);
        step
    }

    fn lift(&mut self, nozzle: NozzleNo, last: Millilitres, price: Mills) -> PointStep
        requires { is_listed (PointEvent.Lift nozzle last price) self.old.state ≡ true }
        ensures step { result ≡ step_of (PointEvent.Lift nozzle last price) self.old }
        ensures facts { self.new ≡ after (PointEvent.Lift nozzle last price) self.old }
    {
        self.out = Some(nozzle);
        match self.state {
            PointState::Authorised => {
                self.state = PointState::Started;
                self.delivery = Some(Delivery::new(last, price));
                PointStep::Start {
                    preset: self.preset,
                    price,
                }
            }
            _ => {
                self.state = PointState::Calling;
                PointStep::Calling
            }
        }
    }

    fn release(&mut self, preset: Preset, prepaid: Option<u32>, last: Millilitres, price: Mills)
        requires { is_listed (PointEvent.Release preset prepaid last price) self.old.state ≡ true }
        ensures { self.new ≡ after (PointEvent.Release preset prepaid last price) self.old }
    {
        self.preset = preset;
        self.prepaid = prepaid;
        match self.state {
            PointState::Calling => {
                self.state = PointState::Started;
                self.delivery = Some(Delivery::new(last, price));
            }
            _ => self.state = PointState::Authorised,
        }
    }

    fn terminate(&mut self) -> PointStep
        requires { is_listed PointEvent.Terminate self.old.state ≡ true }
        ensures step { result ≡ step_of PointEvent.Terminate self.old }
        ensures facts { self.new ≡ after PointEvent.Terminate self.old }
    {
        if self.state == PointState::Authorised {
            self.forget_in(PointState::Idle);
            return PointStep::Stopped;
        }
        self.state = suspend_state(self.state);
        self.ending = true;
        PointStep::Ending
    }

    fn flow(&mut self, growth: u64) -> PointStep
        requires listed { is_under_way self.old.state ≡ true }
        requires fits { self.old.volume + growth ≤ GREATEST_READING }
        ensures step { (nozzle : ℕ) → result ≡ step_of (PointEvent.Flow nozzle growth) self.old }
        ensures facts { (nozzle : ℕ) → self.new ≡ after (PointEvent.Flow nozzle growth) self.old }
    {
        let Some(delivery) = self.delivery else {
            unreachable!();
        };
        self.delivery = Some(delivery.after(growth));
        if growth > 0 {
            self.state = flow_state(self.state);
        }
        PointStep::Flowed { growth }
    }

    fn hang_up(&mut self, growth: u64) -> PointStep
        requires listed { has_nozzle_out self.old.state ≡ true }
        requires fits { volume_of self.old + growth ≤ GREATEST_READING }
        ensures step { (nozzle : ℕ) → result ≡ step_of (PointEvent.HangUp nozzle growth) self.old }
        ensures facts { (nozzle : ℕ) → self.new ≡ after (PointEvent.HangUp nozzle growth) self.old }
    {
        let step = match self.state {
            PointState::Calling => PointStep::HungUp,
            PointState::Fuelling | PointState::SuspendedFuelling => self.finish(growth),
            _ if growth > 0 => self.finish(growth),
            _ => PointStep::NoSale,
        };
        self.forget_in(PointState::Idle);
        step
    }

    /// What is told of the fuelling with what has flowed last: its sale, or of a test what it drew.
    fn finish(&self, growth: u64) -> PointStep
        requires under_way { is_under_way self.now.state ≡ true }
        requires fits { self.now.volume + growth ≤ GREATEST_READING }
        ensures { result ≡ told_over (unwrap_or self.now.out 0) (self.now.volume + growth)
            self.now }
    {
        if let Some(nozzle) = self.out
            && let Some(delivery) = self.delivery
            && let Some(volume) = Millilitres::new(delivery.volume + growth)
        {
            if self.test {
                return PointStep::Drawn { nozzle, volume };
            }
            PointStep::Sold {
                nozzle,
                volume,
                price: delivery.price,
                prepaid: self.prepaid,
            }
        } else {
            unreachable!()
        }
    }

    /// The point goes to a state in which it keeps nothing.
    fn forget_in(&mut self, state: PointState)
        requires { has_nozzle_out state ≡ false }
        ensures { self.new ≡ empty_point state }
    {
        self.state = state;
        self.out = None;
        self.ending = false;
        self.test = false;
        self.preset = Preset::Unset;
        self.prepaid = None;
        self.delivery = None;
    }

    fn judge_ending(&self) -> Result<(), Refusal>
        ensures { MatchResult result (λ _. self.now.ending ≡ false)
            (λ refusal. (self.now.ending ≡ true) × (refusal ≡ Refusal.Ending)) }
    {
        if self.ending {
            Err(Refusal::Ending)
        } else {
            Ok(())
        }
    }

    /// Is this the nozzle that is out?
    fn judge_nozzle(&self, nozzle: NozzleNo) -> Result<(), Refusal>
        ensures { MatchResult result (λ _. is_out nozzle self.now.out ≡ None)
            (λ refusal. is_out nozzle self.now.out ≡ Some refusal) }
    {
        match self.out {
            Some(out) if out != nozzle => Err(Refusal::WrongNozzle(out)),
            _ => Ok(()),
        }
    }
}

/// The state in which a fuelling in this state is suspended.
fn suspend_state(state: PointState) -> PointState
    ensures { result ≡ suspend_state state }
{
    match state {
        PointState::Started => PointState::SuspendedStarted,
        PointState::Fuelling => PointState::SuspendedFuelling,
        _ => state,
    }
}

/// The state of a fuelling in this state once fuel has flowed.
fn flow_state(state: PointState) -> PointState
    ensures { result ≡ flow_state state }
{
    match state {
        PointState::Started => PointState::Fuelling,
        PointState::SuspendedStarted => PointState::SuspendedFuelling,
        _ => state,
    }
}

/// The state of a suspended fuelling once it goes on.
fn resume_state(state: PointState) -> PointState
    ensures { result ≡ resume_state state }
{
    match state {
        PointState::SuspendedStarted => PointState::Started,
        PointState::SuspendedFuelling => PointState::Fuelling,
        _ => state,
    }
}
