//! Lines in words.

ghost use Rattle.std.specs.Prelude.{◌≡◌, ◌≢◌, ℕ, ◌≤◌, ◌++◌, ◌∷◌, IfSome, IfNone, codes, decimal};
ghost use Rattle.site_base.specs.declared.limits.TheConstants.{NOZZLES, POINTS};
ghost use Rattle.site_base.specs.States.{state_number};
ghost use Rattle.demo.specs.declared.steps.Step.{Step};
ghost use Rattle.site_base.specs.declared.state.PointState.{PointState};
ghost use Rattle.demo.specs.declared.limits.TheConstants.{GREATEST_POLLS, GREATEST_PUMPED};
ghost use Rattle.demo.specs.declared.line.Line.{Line};
ghost use Rattle.demo.specs.Script.{Begins, IsDispenserText, IsStepText};

use crate::limits::{GREATEST_POLLS, GREATEST_PUMPED};
use crate::line::Line;
use crate::steps::Step;
use forecourt_engines::number::{is_word, number_behind, split_at_octet, strip_word};
use site_base::{FpNo, Millilitres, NOZZLES, NozzleNo, POINTS, PointState};

/// Returns the section that the text begins: `till`, or `dispenser P POLLS`.
pub fn section_begun(text: &[u8]) -> Option<Line>
    ensures found { IfSome result (λ line. Begins text.now line) }
    ensures other { IfNone result ((line : Line) → ¬ Begins text.now line) }
{
    if is_word(text, b"till") {
        return Some(Line::Till);
    }
    let (p, polls) = dispenser_in(text)?;
    Some(Line::Dispenser(p, polls))
}

/// Returns the step that the text says.
pub fn step_of(text: &[u8]) -> Option<Step>
    ensures found { IfSome result (λ step. IsStepText text.now step) }
    ensures other { IfNone result ((step : Step) → ¬ IsStepText text.now step) }
{
    if is_word(text, b"online") {
        return Some(Step::Online);
    }
    if is_word(text, b"offline") {
        return Some(Step::Offline);
    }
    if is_word(text, b"hang") {
        return Some(Step::HangUp);
    }
    if let Some(n) = nozzle_in(text) {
        return Some(Step::Lift(n));
    }
    if let Some(volume) = volume_in(text) {
        return Some(Step::Pump(volume));
    }
    let state = state_in(text)?;
    Some(Step::WaitFor(state))
}

/// The nozzle of `lift N`.
fn nozzle_in(text: &[u8]) -> Option<NozzleNo>
    ensures found { IfSome result (λ n.
        (text.now ≡ codes "lift " ++ decimal n) × (1 ≤ n) × (n ≤ NOZZLES)) }
    ensures other { IfNone result ((n : ℕ) → 1 ≤ n → n ≤ NOZZLES
        → text.now ≢ codes "lift " ++ decimal n) }
{
    let n = number_behind(b"lift ", text, 1, u64::from(NOZZLES))?;
    NozzleNo::new(n as u8)
}

/// The millilitres of `pump ML`.
fn volume_in(text: &[u8]) -> Option<Millilitres>
    ensures found { IfSome result (λ n.
        (text.now ≡ codes "pump " ++ decimal n) × (n ≤ GREATEST_PUMPED)) }
    ensures other { IfNone result ((n : ℕ) → n ≤ GREATEST_PUMPED
        → text.now ≢ codes "pump " ++ decimal n) }
{
    let n = number_behind(b"pump ", text, 0, u64::from(GREATEST_PUMPED))?;
    Millilitres::new(n)
}

/// The state of `wait S`.
fn state_in(text: &[u8]) -> Option<PointState>
    ensures found { IfSome result (λ state.
        text.now ≡ codes "wait " ++ decimal (state_number state)) }
    ensures other { IfNone result ((state : PointState) →
        text.now ≢ codes "wait " ++ decimal (state_number state)) }
{
    let n = number_behind(b"wait ", text, 1, 9)?;
    Some(state_of(n))
}

/// The state of this number.
fn state_of(number: u64) -> PointState
    requires least { 1 ≤ number }
    requires most { number ≤ 9 }
    ensures { state_number result ≡ number }
{
    match number {
        1 => PointState::Inoperative,
        2 => PointState::Closed,
        3 => PointState::Idle,
        4 => PointState::Calling,
        5 => PointState::Authorised,
        6 => PointState::Started,
        7 => PointState::SuspendedStarted,
        8 => PointState::Fuelling,
        9 => PointState::SuspendedFuelling,
        _ => unreachable!(),
    }
}

/// The point and the polls of `dispenser P POLLS`.
fn dispenser_in(text: &[u8]) -> Option<(FpNo, u64)>
    ensures found { IfSome result (λ d. IsDispenserText text.now d.0 d.1) }
    ensures other { IfNone result ((p : ℕ) → (polls : ℕ) → ¬ IsDispenserText text.now p polls) }
{
    let Some(numbers) = strip_word(b"dispenser ", text) else {
        return None;
    };
    let Some((first, last)) = split_at_octet(b' ', numbers) else {
        return None;
    };
    let Some(p) = point_of(first) else {
        return None;
    };
    let Some(polls) = polls_of(last) else {
        return None;
    };
    Some((p, polls))
}

/// The point of this number.
fn point_of(digits: &[u8]) -> Option<FpNo>
    ensures found { IfSome result (λ p. (digits.now ≡ decimal p) × (1 ≤ p) × (p ≤ POINTS)) }
    ensures other { IfNone result ((p : ℕ) → 1 ≤ p → p ≤ POINTS → digits.now ≢ decimal p) }
{
    let p = number_behind(b"", digits, 1, u64::from(POINTS))?;
    FpNo::new(p as u8)
}

/// How often a dispenser may look.
fn polls_of(digits: &[u8]) -> Option<u64>
    ensures found { IfSome result (λ polls.
        (digits.now ≡ decimal polls) × (1 ≤ polls) × (polls ≤ GREATEST_POLLS)) }
    ensures other { IfNone result ((polls : ℕ) → 1 ≤ polls → polls ≤ GREATEST_POLLS
        → digits.now ≢ decimal polls) }
{
    let polls = number_behind(b"", digits, 1, u64::from(GREATEST_POLLS))?;
    Some(polls)
}
