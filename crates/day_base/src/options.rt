//! The plans of a server and of a station, read from the words of a command line.

ghost use Rattle.std.specs.Prelude.{ℕ, Option, ◌≡◌, IfOk, IfErr, IfSome, IfNone, option_map};
ghost use Rattle.day_base.specs.Plans.{TellsIdle, TellsNumber, TellsPlace, TellsPlan};
ghost use Rattle.day_base.specs.Plans.{TellsRate, TellsStationPlan};
ghost use Rattle.day_base.specs.Plans.{IsFirstFault, IsFirstStationFault};

use crate::house_plan::{LEAST_RELEASE_SECONDS, MOST_LOST_SECONDS, MOST_RELEASE_SECONDS};
use crate::plan::{GREATEST_RATE, IDLE_SECONDS, ServerPlan, StationPlan, USUAL_RATE};
use counter_desk::WORKERS;
use site_base::TILLS;
use thiserror::Error;
use till_session::SESSIONS;

/// A word of the command line that isn't a decimal number in its range.
#[derive(Clone, Copy, Debug, PartialEq, Eq, Error)]
pub enum OptionFault {
    /// The port.
    #[error("--port is a decimal number from 0 to {max}", max = u16::MAX)]
    Port,
    /// The workers.
    #[error("--workers is a decimal number from 1 to {max}", max = WORKERS)]
    Workers,
    /// The sessions.
    #[error("--sessions is a decimal number from 1 to {max}", max = SESSIONS)]
    Sessions,
    /// The page's port.
    #[error("--page is a decimal number from 0 to {max}", max = u16::MAX)]
    Page,
    /// The feed's port.
    #[error("--feed is a decimal number from 0 to {max}", max = u16::MAX)]
    Feed,
    /// The seconds of a silent session.
    #[error("--idle is a decimal number from 1 to {max}", max = IDLE_SECONDS)]
    Idle,
    /// The rate of a session.
    #[error("--rate is a decimal number from 0 to {max}", max = GREATEST_RATE)]
    Rate,
    /// The house till.
    #[error("--house is a decimal number from 1 to {max}", max = TILLS)]
    House,
    /// The seconds of a release.
    #[error("--release-age is a decimal number from {least} to {most}", least = LEAST_RELEASE_SECONDS, most = MOST_RELEASE_SECONDS)]
    ReleaseAge,
    /// The seconds of a dispenser that is gone.
    #[error("--lost is a decimal number from 0 to {max}", max = MOST_LOST_SECONDS)]
    Lost,
}

impl ServerPlan {
    /// Reads the plan from these words: the port from 0 (a free one) to 65535, workers from 1 to
    /// 16, sessions from 1 to 10,000. Otherwise returns the first word that isn't a decimal number
    /// in its range. A sign isn't a digit.
    pub fn read(port: &str, workers: &str, sessions: &str) -> Result<ServerPlan, OptionFault>
        ensures plan { IfOk result (λ plan. TellsPlan port.now workers.now sessions.now plan) }
        ensures first { IfErr result (λ fault. IsFirstFault port.now workers.now sessions.now
            fault) }
    {
        let port = number_in(port, 0, u64::from(u16::MAX)).ok_or(OptionFault::Port)?;
        let workers = number_in(workers, 1, WORKERS as u64).ok_or(OptionFault::Workers)?;
        let sessions = number_in(sessions, 1, SESSIONS as u64).ok_or(OptionFault::Sessions)?;
        Ok(ServerPlan {
            port: port as u16,
            workers: workers as usize,
            sessions: sessions as usize,
        })
    }
}

impl StationPlan {
    /// Reads the plan from these words. The port, and those of the page and of the feed, are from 0
    /// (a free one) to 65535, if there is a word for them. The seconds are from 1 to 86,400, if
    /// there is a word for them. The rate is from 0 to 1,000,000, and 1,000 without a word.
    /// Otherwise returns the first word that isn't a decimal number in its range. A sign isn't a
    /// digit.
    pub fn read(
        port: Option<&str>,
        page: Option<&str>,
        feed: Option<&str>,
        idle: Option<&str>,
        rate: Option<&str>,
    ) -> Result<StationPlan, OptionFault>
        ensures plan { IfOk result (λ plan. TellsStationPlan
            (option_map (λ w. w.now) port.entry) (option_map (λ w. w.now) page.entry)
            (option_map (λ w. w.now) feed.entry) (option_map (λ w. w.now) idle.entry)
            (option_map (λ w. w.now) rate.entry) plan) }
        ensures first { IfErr result (λ fault. IsFirstStationFault
            (option_map (λ w. w.now) port.entry) (option_map (λ w. w.now) page.entry)
            (option_map (λ w. w.now) feed.entry) (option_map (λ w. w.now) idle.entry)
            (option_map (λ w. w.now) rate.entry) fault) }
    {
        let port = read_place(port, OptionFault::Port)?;
        let page = read_place(page, OptionFault::Page)?;
        let feed = read_place(feed, OptionFault::Feed)?;
        let idle = read_idle(idle)?;
        let rate = read_rate(rate)?;
        Ok(StationPlan {
            port,
            page,
            feed,
            idle,
            rate,
        })
    }
}

/// The port that a word tells, where there is one; or this fault.
fn read_place(word: Option<&str>, fault: OptionFault) -> Result<Option<u16>, OptionFault>
    ensures told { IfOk result (λ n. TellsPlace (option_map (λ w. w.now) word.entry) n) }
    ensures other { IfErr result (λ e.
        (e ≡ fault) × ((n : Option ℕ) → ¬ TellsPlace (option_map (λ w. w.now) word.entry) n)) }
{
    match word {
        None => Ok(None),
        Some(word) => match number_in(word, 0, u64::from(u16::MAX)) {
            Some(port) => Ok(Some(port as u16)),
            None => Err(fault),
        },
    }
}

/// The seconds that a word tells, where there is one.
fn read_idle(idle: Option<&str>) -> Result<Option<u64>, OptionFault>
    ensures told { IfOk result (λ n. TellsIdle (option_map (λ w. w.now) idle.entry) n) }
    ensures other { IfErr result (λ fault.
        (fault ≡ OptionFault.Idle)
        × ((n : Option ℕ) → ¬ TellsIdle (option_map (λ w. w.now) idle.entry) n)) }
{
    match idle {
        None => Ok(None),
        Some(word) => match number_in(word, 1, IDLE_SECONDS) {
            Some(seconds) => Ok(Some(seconds)),
            None => Err(OptionFault::Idle),
        },
    }
}

/// The rate that a word tells; the usual one where there is none.
fn read_rate(rate: Option<&str>) -> Result<u64, OptionFault>
    ensures told { IfOk result (λ n. TellsRate (option_map (λ w. w.now) rate.entry) n) }
    ensures other { IfErr result (λ fault.
        (fault ≡ OptionFault.Rate)
        × ((n : ℕ) → ¬ TellsRate (option_map (λ w. w.now) rate.entry) n)) }
{
    match rate {
        None => Ok(USUAL_RATE),
        Some(word) => match number_in(word, 0, GREATEST_RATE) {
            Some(rate) => Ok(rate),
            None => Err(OptionFault::Rate),
        },
    }
}

/// The number in this range that a word of decimal digits tells.
pub(crate) fn number_in(word: &str, least: u64, most: u64) -> Option<u64>
    ensures told { IfSome result (λ n. TellsNumber least most word.now n) }
    ensures other { IfNone result ((n : ℕ) → ¬ TellsNumber least most word.now n) }
{
    // `parse` takes a plus before the digits.
    if word.as_bytes().first() == Some(&b'+') {
        return None;
    }
    match word.parse::<u64>() {
        Ok(number) => {
            if least <= number && number <= most {
                Some(number)
            } else {
                None
            }
        }
        Err(_) => None,
    }
}
