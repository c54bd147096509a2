//! The table of the numbers that the site and the program give, each with its name and its meaning.
//! Everything that prints a number's name or meaning reads it here.

ghost use Rattle.std.specs.Prelude.{◌≡◌, ◌||◌, is_some, true};
ghost use Rattle.site_base.specs.NumbersTold.{has_meaning, is_refusal, stands_alone};
ghost use Rattle.site_base.specs.Ranges.{is_between};

use std::fmt;

/// A number that the site or the program gives, its name, and what it means.
#[derive(Clone, Copy, Debug, PartialEq, Eq)]
pub struct NumberMeaning {
    number: u8,
    name: &'static str,
    text: &'static str,
}

impl NumberMeaning {
    /// Returns the meaning of a number: a refusal's, 1 to 25, or a fault's, 30, 31, 40 to 44, 50 to
    /// 65 and 70 to 76. None for a number that isn't used.
    pub fn of(number: u8) -> Option<NumberMeaning>
        ensures { is_some result ≡ has_meaning number }
    {
        let (name, text) = match number {
            1..=13 => refusal_of_who_and_what(number),
            14..=25 => refusal_of_course(number),
            30..=49 => fault_of_stream(number),
            50..=58 => fault_of_request(number),
            59..=65 => fault_of_run(number),
            _ => fault_of_site_file(number),
        }?;
        Some(NumberMeaning { number, name, text })
    }

    /// Returns the meaning of a number that comes in place of a reply: why there is no row, why a
    /// stream ended, or why a message is no request. None for every other number.
    pub fn of_no_reply(number: u8) -> Option<NumberMeaning>
        ensures { is_some result ≡ stands_alone number }
    {
        match number {
            30 | 31 | 40..=43 | 50..=58 => NumberMeaning::of(number),
            _ => None,
        }
    }

    /// Returns its name, for example `LockedByOther`.
    pub fn name(&self) -> &'static str {
        self.name
    }

    /// Is it the number of a refusal?
    fn is_refusal(&self) -> bool
        ensures { result ≡ is_refusal self.now.number }
    {
        1 <= self.number && self.number <= 25
    }
}

impl fmt::Display for NumberMeaning {
    /// `refusal 20 LockedByOther: another till has locked the transaction (detail: the till)`.
    fn fmt<W: fmt::Write>(&self, f: &mut fmt::Formatter<W>) -> fmt::Result {
        let kind = if self.is_refusal() {
            "refusal"
        } else {
            "fault"
        };
        write!(f, "{kind} {} {}: {}", self.number, self.name, self.text)
    }
}

/// Refusals of who asks, and of what is named.
fn refusal_of_who_and_what(number: u8) -> Option<(&'static str, &'static str)>
    ensures { is_some result ≡ (is_between 1 13 number) }
{
    Some(match number {
        1 => ("NotSignedOn", "the till isn't signed on"),
        2 => ("SignedOn", "the till is signed on already"),
        3 => ("NoSuchPoint", "the site has no such fuelling point"),
        4 => ("NoSuchNozzle", "the fuelling point has no such nozzle"),
        5 => ("NoSuchProduct", "the site has no such product"),
        6 => (
            "NoSuchTransaction",
            "the fuelling point has no such transaction",
        ),
        7 => ("NotManager", "only a manager may do this"),
        8 => ("BadPrice", "the price is out of range"),
        9 => ("BadPreset", "the preset or prepayment is out of range"),
        10 => (
            "WrongState",
            "the point doesn't accept this in its state (detail: the state)",
        ),
        11 => (
            "AssignedToOther",
            "another till holds the fuelling point (detail: the till)",
        ),
        12 => ("NotYours", "nobody holds the fuelling point"),
        13 => (
            "NotYourPoint",
            "a report of another's point, or an event that is not this kind of node's",
        ),
        _ => return None,
    })
}

/// Refusals of how a fuelling, a meter or a transaction goes on.
fn refusal_of_course(number: u8) -> Option<(&'static str, &'static str)>
    ensures { is_some result ≡ (is_between 14 25 number) }
{
    Some(match number {
        14 => (
            "WrongNozzle",
            "another nozzle is out (detail: the one that is out)",
        ),
        15 => (
            "BufferFull",
            "the fuelling point has as many unpaid transactions as it may",
        ),
        16 => (
            "SequenceSpent",
            "the fuelling point has no transaction number left in the open shift",
        ),
        17 => (
            "MeterGap",
            "the reading isn't the meter's last one (detail: the last one)",
        ),
        18 => (
            "MeterBack",
            "the reading is below the meter's last one (detail: the last one)",
        ),
        19 => (
            "MeterJump",
            "the reading is too far above the meter's last one",
        ),
        20 => (
            "LockedByOther",
            "another till has locked the transaction (detail: the till)",
        ),
        21 => ("NotLocked", "nobody has locked the transaction"),
        22 => (
            "AlreadyCleared",
            "the transaction is cleared already (detail: the till that cleared it)",
        ),
        23 => ("Ending", "the fuelling is ending"),
        24 => ("ShiftsSpent", "the last shift is open"),
        25 => (
            "MeterSpent",
            "the nozzle's meter was replaced as often as it may be",
        ),
        _ => return None,
    })
}

/// Faults of the book, of memory, and of the octets of a stream.
fn fault_of_stream(number: u8) -> Option<(&'static str, &'static str)>
    ensures { is_some result ≡ (is_between 30 31 number || is_between 40 44 number) }
{
    Some(match number {
        30 => (
            "BookFull",
            "the book has as many rows as the site file allows",
        ),
        31 => ("NoMemory", "there is no memory"),
        40 => (
            "BadCode",
            "a message's code octet isn't 00, so the stream ends",
        ),
        41 => ("BadKind", "a message is of no kind, so the stream ends"),
        42 => (
            "BadLength",
            "a message's body or address is too short or too long, so the stream ends",
        ),
        43 => (
            "BadItem",
            "a message's items aren't in order, or one runs over its end, so the stream ends",
        ),
        44 => ("Truncated", "the stream ends inside a message"),
        _ => return None,
    })
}

/// Faults of a message that the mapping or a session refuses.
fn fault_of_request(number: u8) -> Option<(&'static str, &'static str)>
    ensures { is_some result ≡ (is_between 50 58 number) }
{
    Some(match number {
        50 => ("NotForUs", "the message isn't for the site"),
        51 => (
            "BadOriginator",
            "a read or a write comes from no till, or a report from no dispenser",
        ),
        52 => (
            "BadAddress",
            "the address is of no database that has such a request",
        ),
        53 => (
            "UnknownItem",
            "an item isn't one of this request, or excludes another one",
        ),
        54 => ("ItemMissing", "an item of this request isn't there"),
        55 => (
            "BadDecimal",
            "a transaction's number or shift isn't decimal, or is out of range",
        ),
        56 => (
            "BadNumber",
            "an item has another width, or a number that is out of range",
        ),
        57 => (
            "OriginatorChanged",
            "the session's messages come from two nodes",
        ),
        58 => ("NotARequest", "the message is no request"),
        _ => return None,
    })
}

/// Faults of a run of the program.
fn fault_of_run(number: u8) -> Option<(&'static str, &'static str)>
    ensures { is_some result ≡ (is_between 59 65 number) }
{
    Some(match number {
        59 => ("TurnLimit", "too many reads and interrupted writes"),
        60 => (
            "StrangeReceipt",
            "the shares don't add up to the book (place: a row's; the rows' number if one is out)",
        ),
        61 => ("ReadFault", "the input can't be read"),
        62 => (
            "WriteFault",
            "the output, or what a station stores, takes no more",
        ),
        63 => (
            "AcceptFault",
            "it can't listen there, or a connection couldn't be made",
        ),
        64 => ("NoWorker", "a worker, or a thread, couldn't be started"),
        65 => (
            "PollsSpent",
            "a dispenser waited for a state that didn't come",
        ),
        _ => return None,
    })
}

/// Faults of a site file. A key stands after 71 to 75.
fn fault_of_site_file(number: u8) -> Option<(&'static str, &'static str)>
    ensures { is_some result ≡ (is_between 70 76 number) }
{
    Some(match number {
        70 => ("NotToml", "the site file isn't TOML"),
        71 => (
            "UnknownKey",
            "the site file has a key that isn't one of its table's",
        ),
        72 => ("MissingKey", "the site file lacks this key"),
        73 => ("WrongKind", "the value of this key isn't of its kind"),
        74 => (
            "OutOfRange",
            "this key's value (a name: a to z, 0 to 9, -) or its list's length is out of range",
        ),
        75 => ("Repeated", "the value of this key stands there twice"),
        76 => (
            "UnknownProduct",
            "a nozzle's product isn't the number of a product of the site file",
        ),
        _ => return None,
    })
}
