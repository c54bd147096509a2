//! Replies in words, as `explain` prints them.

ghost use Rattle.std.specs.Prelude.{◌≡◌, IfOk, string_bytes, Ok, Err};
ghost use Rattle.row_json.specs.ReplyWords.{answer_words, detail_behind, preset_words};
ghost use Rattle.row_json.specs.ReplyWords.{refusal_name, refusal_words, reply_words};

use site_base::{Answer, Preset, Refusal, Reply};
use site_json::state_word;
use std::alloc::{AllocError, Global};

/// Returns a reply in words: the name of an answer with what it carries, or the number and name of
/// a refusal with what it names.
pub fn reply_text(alloc: Global, reply: &Reply) -> Result<String, AllocError>
    ensures { IfOk result (λ text. string_bytes text ≡ reply_words reply.now) }
{
    match reply {
        Ok(answer) => answer_text(alloc, answer),
        Err(refusal) => refusal_text(alloc, refusal),
    }
}

/// An answer's name, and what it carries.
fn answer_text(alloc: Global, answer: &Answer) -> Result<String, AllocError>
    ensures { IfOk result (λ text. string_bytes text ≡ answer_words answer.now) }
{
    let name = match answer {
        Answer::Done => "Done",
        Answer::Calling => "Calling",
        Answer::HungUp => "HungUp",
        Answer::NoSale => "NoSale",
        Answer::Stopped => "Stopped",
        Answer::Ending => "Ending",
        Answer::Locked => "Locked",
        Answer::Unlocked => "Unlocked",
        Answer::PointIs(_) => "PointIs",
        Answer::TransactionIs(_) => "TransactionIs",
        Answer::ProductIs(_) => "ProductIs",
        Answer::SiteIs(_) => "SiteIs",
        Answer::Start { preset, price } => return start_text(alloc, preset, price.get()),
        Answer::Flowed(growth) => return format!(in alloc; "Flowed({growth})"),
        Answer::Sold { seq, growth } => return sold_text(alloc, seq.get(), *growth),
        Answer::Cleared(cents) => return format!(in alloc; "Cleared({})", cents.get()),
        Answer::ShiftClosed(shift) => return format!(in alloc; "ShiftClosed({})", shift.get()),
        Answer::Drawn { growth } => return format!(in alloc; "Drawn{{{growth}}}"),
    };
    String::from_str(alloc, name)
}

/// The answer to a start: `Start{Unset, 1500}`.
fn start_text(alloc: Global, preset: &Preset, price: u32) -> Result<String, AllocError>
    ensures { IfOk result (λ text. string_bytes text
        ≡ answer_words (Answer.Start preset.now price)) }
{
    let preset = preset_text(alloc, preset)?;
    format!(in alloc; "Start{{{preset}, {price}}}")
}

/// The answer to the end of a fuelling: `Sold{1, 10000}`.
fn sold_text(alloc: Global, number: u16, growth: u64) -> Result<String, AllocError>
    ensures { IfOk result (λ text. string_bytes text
        ≡ answer_words (Answer.Sold number growth)) }
{
    format!(in alloc; "Sold{{{number}, {growth}}}")
}

/// A preset: `Unset`, `Volume(3000)` in millilitres, or `Money(2000)` in cents.
fn preset_text(alloc: Global, preset: &Preset) -> Result<String, AllocError>
    ensures { IfOk result (λ text. string_bytes text ≡ preset_words preset.now) }
{
    match preset {
        Preset::Unset => String::from_str(alloc, "Unset"),
        Preset::Volume(millilitres) => format!(in alloc; "Volume({millilitres})"),
        Preset::Money(cents) => format!(in alloc; "Money({cents})"),
    }
}

/// A refusal's number, its name, and what it names.
fn refusal_text(alloc: Global, refusal: &Refusal) -> Result<String, AllocError>
    ensures { IfOk result (λ text. string_bytes text ≡ refusal_words refusal.now) }
{
    let (number, name) = (refusal.number(), refusal_name(refusal));
    let detail = detail_text(alloc, refusal)?;
    format!(in alloc; "{number} {name}{detail}")
}

/// What a refusal names, in brackets.
fn detail_text(alloc: Global, refusal: &Refusal) -> Result<String, AllocError>
    ensures { IfOk result (λ text. string_bytes text ≡ detail_behind refusal.now) }
{
    if let Refusal::WrongState(state) = refusal {
        let state = state_word(*state);
        return format!(in alloc; "({state})");
    }
    match refusal.detail() {
        Some(detail) => format!(in alloc; "({detail})"),
        None => Ok(String::new(alloc)),
    }
}

/// A refusal's name.
fn refusal_name(refusal: &Refusal) -> &'static str
    ensures { result.now ≡ refusal_name refusal.now }
{
    match refusal {
        Refusal::NotSignedOn => "NotSignedOn",
        Refusal::SignedOn => "SignedOn",
        Refusal::NoSuchPoint => "NoSuchPoint",
        Refusal::NoSuchNozzle => "NoSuchNozzle",
        Refusal::NoSuchProduct => "NoSuchProduct",
        Refusal::NoSuchTransaction => "NoSuchTransaction",
        Refusal::NotManager => "NotManager",
        Refusal::BadPrice => "BadPrice",
        Refusal::BadPreset => "BadPreset",
        Refusal::WrongState(_) => "WrongState",
        Refusal::AssignedToOther(_) => "AssignedToOther",
        Refusal::NotYours => "NotYours",
        Refusal::NotYourPoint => "NotYourPoint",
        Refusal::WrongNozzle(_) => "WrongNozzle",
        Refusal::BufferFull => "BufferFull",
        Refusal::SequenceSpent => "SequenceSpent",
        Refusal::MeterGap(_) => "MeterGap",
        Refusal::MeterBack(_) => "MeterBack",
        Refusal::MeterJump => "MeterJump",
        Refusal::LockedByOther(_) => "LockedByOther",
        Refusal::NotLocked => "NotLocked",
        Refusal::AlreadyCleared(_) => "AlreadyCleared",
        Refusal::Ending => "Ending",
        Refusal::ShiftsSpent => "ShiftsSpent",
        Refusal::MeterSpent => "MeterSpent",
    }
}
