//! The names of events.

ghost use Rattle.std.specs.Prelude.{◌≡◌, ◌≢◌, IfNone, IfSome};
ghost use Rattle.forecourt_engines.specs.declared.words.event_name.EventName.{EventName};
ghost use Rattle.forecourt_engines.specs.declared.words.event_name.LoneName.{LoneName};
ghost use Rattle.forecourt_engines.specs.declared.words.event_name.MeterName.{MeterName};
ghost use Rattle.forecourt_engines.specs.declared.words.event_name.PointName.{PointName};
ghost use Rattle.forecourt_engines.specs.declared.words.event_name.SaleName.{SaleName};
ghost use Rattle.forecourt_engines.specs.EventNames.{is_report, name_word};

use crate::number::is_word;

/// The one of these variants whose name a word is, if it is one.
macro_rules! find_name {
    ($word:expr, $kind:ident: $($name:ident),+) => {{
        $(if is_word($word, stringify!($name).as_bytes()) {
            return Some($kind::$name);
        })+
        None
    }};
}

/// The name of an event, by what follows it.
#[derive(Clone, Copy, Debug, PartialEq, Eq)]
pub enum EventName {
    /// Nothing follows.
    Alone(LoneName),
    /// A fuelling point.
    OfPoint(PointName),
    /// A fuelling point, and a nozzle with its meter's reading.
    OfMeter(MeterName),
    /// A transaction.
    OfSale(SaleName),
    /// A fuelling point, and, if it is limited, `volume` or `money` with an amount.
    Release,
    /// A fuelling point, and cents.
    Prepay,
    /// A product, and mills.
    SetPrice,
    /// A product.
    ReadProduct,
}

/// The name of an event that nothing follows.
#[derive(Clone, Copy, Debug, PartialEq, Eq)]
pub enum LoneName {
    SignOn,
    SignOff,
    CloseShift,
    ReadSite,
}

/// The name of an event that names only a fuelling point.
#[derive(Clone, Copy, Debug, PartialEq, Eq)]
pub enum PointName {
    Open,
    Close,
    Assign,
    Unassign,
    TestRelease,
    Suspend,
    Resume,
    Terminate,
    ReadPoint,
    Online,
    Offline,
}

/// The name of an event of a nozzle's meter.
#[derive(Clone, Copy, Debug, PartialEq, Eq)]
pub enum MeterName {
    ReplaceMeter,
    Lift,
    Flow,
    HangUp,
}

/// The name of an event of a transaction.
#[derive(Clone, Copy, Debug, PartialEq, Eq)]
pub enum SaleName {
    Lock,
    Unlock,
    Clear,
    ReadTransaction,
}

impl EventName {
    /// Is it the name of a report of a dispenser, which no till asks for?
    pub fn is_report(&self) -> bool
        ensures { result ≡ is_report self.now }
    {
        match self {
            EventName::OfPoint(name) => matches!(name, PointName::Online | PointName::Offline),
            EventName::OfMeter(name) => !matches!(name, MeterName::ReplaceMeter),
            _ => false,
        }
    }
}

/// Returns the name that this word is, if it is one.
pub fn name_of(word: &[u8]) -> Option<EventName>
    ensures found { IfSome result (λ name. word.now ≡ name_word name) }
    ensures other { IfNone result ((name : EventName) → word.now ≢ name_word name) }
{
    if let Some(name) = point_name(word) {
        return Some(EventName::OfPoint(name));
    }
    if let Some(name) = sale_name(word) {
        return Some(EventName::OfSale(name));
    }
    if let Some(name) = meter_name(word) {
        return Some(EventName::OfMeter(name));
    }
    if let Some(name) = lone_name(word) {
        return Some(EventName::Alone(name));
    }
    rest_name(word)
}

/// The name of an event whose words are its own.
fn rest_name(word: &[u8]) -> Option<EventName>
    ensures found { IfSome result (λ name. word.now ≡ name_word name) }
    ensures release { IfNone result (word.now ≢ name_word EventName.Release) }
    ensures prepay { IfNone result (word.now ≢ name_word EventName.Prepay) }
    ensures price { IfNone result (word.now ≢ name_word EventName.SetPrice) }
    ensures product { IfNone result (word.now ≢ name_word EventName.ReadProduct) }
{
    find_name!(word, EventName: Release, Prepay, SetPrice, ReadProduct)
}

/// The name of an event that nothing is said of.
fn lone_name(word: &[u8]) -> Option<LoneName>
    ensures found { IfSome result (λ name. word.now ≡ name_word (EventName.Alone name)) }
    ensures other { IfNone result ((name : LoneName)
        → word.now ≢ name_word (EventName.Alone name)) }
{
    find_name!(word, LoneName: SignOn, SignOff, CloseShift, ReadSite)
}

/// The name of an event that names a fuelling point alone.
fn point_name(word: &[u8]) -> Option<PointName>
    ensures found { IfSome result (λ name. word.now ≡ name_word (EventName.OfPoint name)) }
    ensures other { IfNone result ((name : PointName)
        → word.now ≢ name_word (EventName.OfPoint name)) }
{
    find_name!(
        word, PointName: Open, Close, Assign, Unassign, TestRelease, Suspend, Resume, Terminate,
        ReadPoint, Online, Offline
    )
}

/// The name of an event of a nozzle's meter.
fn meter_name(word: &[u8]) -> Option<MeterName>
    ensures found { IfSome result (λ name. word.now ≡ name_word (EventName.OfMeter name)) }
    ensures other { IfNone result ((name : MeterName)
        → word.now ≢ name_word (EventName.OfMeter name)) }
{
    find_name!(word, MeterName: ReplaceMeter, Lift, Flow, HangUp)
}

/// The name of an event of a transaction.
fn sale_name(word: &[u8]) -> Option<SaleName>
    ensures found { IfSome result (λ name. word.now ≡ name_word (EventName.OfSale name)) }
    ensures other { IfNone result ((name : SaleName)
        → word.now ≢ name_word (EventName.OfSale name)) }
{
    find_name!(word, SaleName: Lock, Unlock, Clear, ReadTransaction)
}
