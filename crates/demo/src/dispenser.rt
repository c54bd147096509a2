//! The simulated dispenser of one fuelling point.

ghost use Rattle.std.specs.Prelude.{◌≡◌, ℕ, ◌+◌, ◌<◌, ◌≤◌, [], ◌∷◌, true, Some, IsTrue, IfOk};
ghost use Rattle.std.specs.Prelude.{IfErr, OnErr, slice_get, slice_index_or};
ghost use Rattle.site_base.specs.declared.amounts.TheConstants.{GREATEST_READING};
ghost use Rattle.demo.specs.declared.dispenser.TheConstants.{METERS};
ghost use Rattle.demo.specs.Reports.{is_reported, kept_after, meter_of, nozzles_of};
ghost use Rattle.demo.specs.Reports.{reading_of, refusals_told, sales_told, AreTaken};
ghost use Rattle.demo.specs.Reports.{IsEndedBy, IsIn, IsNew, IsReport, IsSeenIn, IsSent};
ghost use Rattle.demo.specs.Reports.{IsUnsent, Runs};

use crate::end::{DispenserEnd, DispenserFault};
use crate::flow::flow_of;
use crate::steps::{Script, Step};
use counter_desk::{Desk, Naming, Share};
use site_base::{
    Actor, Answer, Event, FpNo, Millilitres, NOZZLES, NozzleEntry, NozzleNo, PointEntry,
    PointState, PointView, Reply, SiteConfig,
};
use std::marker::Model;
use std::sync::Wait;
use std::sync::ledger::Ledger;

/// The number of a dispenser's meters: one for each nozzle that a point can have.
pub const METERS: usize = NOZZLES as usize;

/// The simulated dispenser of one fuelling point: what its meters read, and the last lifted nozzle.
#[derive(Drop)]
pub struct Dispenser {
    point: FpNo,
    readings: [Millilitres; METERS],
    nozzle: NozzleNo,
}

impl Model for Dispenser {
    ghost use Rattle.demo.specs.Reports.{DispenserFacts};

    ghost Value = { DispenserFacts };

    ghost view = { λ d. record { point = d.point; readings = d.readings; nozzle = d.nozzle } };
}

/// How many replies were a sale, and how many a refusal.
#[derive(Clone, Copy)]
struct Counts {
    sold: u64,
    refused: u64,
}

impl Dispenser {
    /// Returns the dispenser of point p. Its meters read what the site file says, and 0 for a
    /// nozzle that isn't there. No nozzle was lifted yet; until one is, its reports are of nozzle
    /// 1.
    pub fn new(config: &SiteConfig, p: FpNo) -> Self
        ensures { IsNew config.now p METERS result }
    {
        Dispenser {
            point: p,
            readings: readings_of(nozzles_of(config.points(), p)),
            nozzle: first_nozzle(),
        }
    }

    /// Carries out the steps of a script, in order. Each step except a wait is a report of this
    /// dispenser through the share. A refused report is counted, and its reading isn't kept. The
    /// run ends if a report makes no row, or if a step looks at the point `polls` times without
    /// seeing the state that it waits for. The share comes back on every path.
    pub fn run<L: Ledger, C: Naming, R: Wait>(
        &mut self,
        rt: &R,
        desk: &Desk<L, C>,
        share: Share<L, C>,
        script: &Script,
        polls: u64,
    ) -> DispenserEnd<L, C>
        ensures runs { Runs C.config script.now self.old self.new
            share.receipts result.share.receipts result.sold result.refused result.fault }
        ensures owed { result.share.owed ≡ share.owed }
    {
        let mut share = share;
        let (counts, fault) = self.take_steps(rt, desk, &mut share, script.steps(), polls);
        DispenserEnd {
            share,
            sold: counts.sold,
            refused: counts.refused,
            fault,
        }
    }

    /// Takes the steps, up to the first that ends the run.
    fn take_steps<L: Ledger, C: Naming, R: Wait>(
        &mut self,
        rt: &R,
        desk: &Desk<L, C>,
        share: &mut Share<L, C>,
        steps: &[Step],
        polls: u64,
    ) -> (Counts, Option<DispenserFault>)
        ensures runs { Runs C.config steps.now self.old self.new share.old.receipts
            share.new.receipts result.0.sold result.0.refused result.1 }
        ensures owed { share.new.owed ≡ share.old.owed }
    {
        let mut counts = Counts {
            sold: 0,
            refused: 0,
        };
        for step in steps {
            match self.take_step(rt, desk, share, step, polls) {
                Ok(one) => {
                    counts.sold += one.sold;
                    counts.refused += one.refused;
                }
                Err(fault) => return (counts, Some(fault)),
            }
        }
        (counts, None)
    }

    /// Takes one step.
    fn take_step<L: Ledger, C: Naming, R: Wait>(
        &mut self,
        rt: &R,
        desk: &Desk<L, C>,
        share: &mut Share<L, C>,
        step: &Step,
        polls: u64,
    ) -> Result<Counts, DispenserFault>
        ensures taken { IfOk result (λ one. AreTaken C.config (step.now ∷ []) self.old self.new
            share.old.receipts share.new.receipts one.sold one.refused) }
        ensures few { IfOk result (λ one. (one.sold ≤ 1) × (one.refused ≤ 1)) }
        ensures ended { IfErr result (λ fault. IsEndedBy C.config (Some step.now) fault) }
        ensures kept { OnErr result (self.new ≡ self.old) }
        ensures receipts { OnErr result (share.new.receipts ≡ share.old.receipts) }
        ensures owed { share.new.owed ≡ share.old.owed }
    {
        if let Step::WaitFor(state) = step {
            if is_seen(rt, desk, self.point, *state, polls) {
                return Ok(Counts {
                    sold: 0,
                    refused: 0,
                });
            }
            return Err(DispenserFault::PollsSpent);
        }
        let event = self.report_of(rt, desk, step);
        let reply = send(rt, desk, share, self.point, &event)?;
        self.keep(&event, &reply);
        Ok(Counts::of(&reply))
    }

    /// The report of a step, which doesn't wait.
    fn report_of<L: Ledger, C: Naming, R: Wait>(
        &self,
        rt: &R,
        desk: &Desk<L, C>,
        step: &Step,
    ) -> Event
        requires { is_reported step.now ≡ true }
        ensures { IsReport C.config self.now step.now result }
    {
        match step {
            Step::Online => Event::Online(self.point),
            Step::Offline => Event::Offline(self.point),
            Step::Lift(n) => Event::Lift(self.point, *n, self.meter(*n)),
            Step::Pump(asked) => {
                let seen = desk.point(rt, self.point);
                let reading = self.meter(self.nozzle);
                let flow = flow_of(*asked, reading, &seen);
                Event::Flow(self.point, self.nozzle, add_flow(reading, flow))
            }
            Step::HangUp => Event::HangUp(self.point, self.nozzle, self.meter(self.nozzle)),
            Step::WaitFor(_) => unreachable!(),
        }
    }

    /// What the meter of a nozzle reads.
    fn meter(&self, n: NozzleNo) -> Millilitres
        ensures value { result ≡ meter_of self.now n }
    {
        self.readings[usize::from(n.get()) - 1]
    }

    /// The report was answered so: the nozzle that it lifted is the one last lifted, and a flow
    /// that was accepted is kept. A lift that made no row isn't the last one.
    fn keep(&mut self, event: &Event, reply: &Reply)
        ensures { self.new ≡ kept_after event.now reply.now self.old }
    {
        match (event, reply) {
            (Event::Lift(_, n, _), _) => self.nozzle = *n,
            (Event::Flow(_, n, reading), Ok(_)) => {
                self.readings[usize::from(n.get()) - 1] = *reading;
            }
            _ => {}
        }
    }
}

impl Counts {
    /// Those of one reply.
    fn of(reply: &Reply) -> Self
        ensures sold { result.sold ≡ sales_told reply.now }
        ensures refused { result.refused ≡ refusals_told reply.now }
    {
        Counts {
            sold: u64::from(matches!(reply, Ok(Answer::Sold { .. }))),
            refused: u64::from(reply.is_err()),
        }
    }
}

/// Sends the report of a dispenser's point, and says what was replied.
fn send<L: Ledger, C: Naming, R: Wait>(
    rt: &R,
    desk: &Desk<L, C>,
    share: &mut Share<L, C>,
    p: FpNo,
    event: &Event,
) -> Result<Reply, DispenserFault>
    ensures sent { IfOk result (λ reply. IsSent p event.now reply share.old.receipts
        share.new.receipts) }
    ensures ended { IfErr result (λ fault. IsUnsent C.config fault) }
    ensures receipts { OnErr result (share.new.receipts ≡ share.old.receipts) }
    ensures owed { share.new.owed ≡ share.old.owed }
{
    match &desk.submit(rt, share, Actor::Dispenser(p), *event) {
        Ok(placed) => Ok(placed.reply),
        Err(no_row) => Err(DispenserFault::of(*no_row)),
    }
}

/// Looks at the point until it is seen in this state, at most so many times. Was it?
fn is_seen<L: Ledger, C: Naming, R: Wait>(
    rt: &R,
    desk: &Desk<L, C>,
    p: FpNo,
    state: PointState,
    polls: u64,
) -> bool
    ensures { IsTrue result → IsSeenIn C.config p state }
{
    for _ in 0..polls {
        if is_in(&desk.point(rt, p), state) {
            return true;
        }
    }
    false
}

/// Is the point in this state?
fn is_in(seen: &Option<PointView>, state: PointState) -> bool
    ensures { IsTrue result → IsIn seen.now state }
{
    match seen {
        Some(view) => view.state == state,
        None => false,
    }
}

/// A reading that so much flow has raised.
fn add_flow(reading: Millilitres, flow: u64) -> Millilitres
    requires { reading + flow ≤ GREATEST_READING }
    ensures { result ≡ reading + flow }
{
    match Millilitres::new(reading.get() + flow) {
        Some(reading) => reading,
        None => unreachable!(),
    }
}

/// Nozzle 1.
fn first_nozzle() -> NozzleNo
    ensures { result ≡ 1 }
{
    match NozzleNo::new(1) {
        Some(nozzle) => nozzle,
        None => unreachable!(),
    }
}

/// A meter that has counted nothing.
fn zero_reading() -> Millilitres
    ensures { result ≡ 0 }
{
    match Millilitres::new(0) {
        Some(reading) => reading,
        None => unreachable!(),
    }
}

/// The nozzles of point p; none where it isn't there.
fn nozzles_of(points: &[PointEntry], p: FpNo) -> &[NozzleEntry]
    ensures { result.now ≡ nozzles_of p points.now }
{
    match points {
        [] => &[],
        [first, rest @ ..] => {
            if first.number.get() == p.get() {
                first.nozzles.as_slice()
            } else {
                nozzles_of(rest, p)
            }
        }
    }
}

/// What the meters of these nozzles read, and 0 for each nozzle that isn't there.
fn readings_of(nozzles: &[NozzleEntry]) -> [Millilitres; METERS]
    ensures { (cell : ℕ) → cell < METERS
        → slice_index_or result cell 0 ≡ reading_of (slice_get nozzles.now cell) }
{
    let mut readings = [zero_reading(); METERS];
    for cell in 0..METERS {
        if let Some(nozzle) = nozzles.get(cell) {
            readings[cell] = nozzle.reading;
        }
    }
    readings
}
