//! What a station does by itself, read from the words of a command line.

ghost use Rattle.std.specs.Prelude.{ℕ, Option, ◌≡◌, IfOk, IfErr, option_map};
ghost use Rattle.day_base.specs.HousePlans.{IsFirstHouseFault, TellsHouse, TellsHousePlan};
ghost use Rattle.day_base.specs.HousePlans.{TellsLost, TellsReleaseAge};

use crate::options::{OptionFault, number_in};
use site_base::TILLS;

/// The fewest seconds after which a release that nobody uses may end.
pub const LEAST_RELEASE_SECONDS: u64 = 10;

/// The most seconds after which such a release may end.
pub const MOST_RELEASE_SECONDS: u64 = 3_600;

/// The seconds after which such a release ends, unless the command line gives others.
pub const USUAL_RELEASE_SECONDS: u64 = 120;

/// The most seconds that a dispenser may be gone until it is lost.
pub const MOST_LOST_SECONDS: u64 = 86_400;

/// The seconds until a dispenser that is gone is lost, unless the command line gives others.
pub const USUAL_LOST_SECONDS: u64 = 60;

/// As which till a station acts by itself, and when.
#[derive(Clone, Copy, Debug, PartialEq, Eq)]
pub struct HousePlan {
    /// The number of the house till; None if no release is ended.
    pub house: Option<u8>,
    /// The seconds after which a release ends.
    pub release_seconds: u64,
    /// The seconds without a session after which a dispenser is lost. With 0 none is lost.
    pub lost_seconds: u64,
}

impl HousePlan {
    /// Reads the plan from these words. The house till is from 1 to 32, if there is a word for it.
    /// The seconds of a release are from 10 to 3,600, and 120 without a word; those of a dispenser
    /// are from 0 to 86,400, and 60 without a word. Otherwise returns the first word that isn't a
    /// decimal number in its range. A sign isn't a digit.
    pub fn read(
        house: Option<&str>,
        release_age: Option<&str>,
        lost: Option<&str>,
    ) -> Result<HousePlan, OptionFault>
        ensures plan { IfOk result (λ plan. TellsHousePlan
            (option_map (λ w. w.now) house.entry) (option_map (λ w. w.now) release_age.entry)
            (option_map (λ w. w.now) lost.entry) plan) }
        ensures first { IfErr result (λ fault. IsFirstHouseFault
            (option_map (λ w. w.now) house.entry) (option_map (λ w. w.now) release_age.entry)
            (option_map (λ w. w.now) lost.entry) fault) }
    {
        let house = read_house(house)?;
        let release_seconds = read_release_age(release_age)?;
        let lost_seconds = read_lost(lost)?;
        Ok(HousePlan {
            house,
            release_seconds,
            lost_seconds,
        })
    }
}

/// The house till that a word tells, where there is one.
fn read_house(house: Option<&str>) -> Result<Option<u8>, OptionFault>
    ensures told { IfOk result (λ n. TellsHouse (option_map (λ w. w.now) house.entry) n) }
    ensures other { IfErr result (λ fault.
        (fault ≡ OptionFault.House)
        × ((n : Option ℕ) → ¬ TellsHouse (option_map (λ w. w.now) house.entry) n)) }
{
    match house {
        None => Ok(None),
        Some(word) => match number_in(word, 1, u64::from(TILLS)) {
            Some(till) => Ok(Some(till as u8)),
            None => Err(OptionFault::House),
        },
    }
}

/// The seconds of a release that a word tells; the usual ones where there is none.
fn read_release_age(age: Option<&str>) -> Result<u64, OptionFault>
    ensures told { IfOk result (λ n. TellsReleaseAge (option_map (λ w. w.now) age.entry) n) }
    ensures other { IfErr result (λ fault.
        (fault ≡ OptionFault.ReleaseAge)
        × ((n : ℕ) → ¬ TellsReleaseAge (option_map (λ w. w.now) age.entry) n)) }
{
    match age {
        None => Ok(USUAL_RELEASE_SECONDS),
        Some(word) => match number_in(word, LEAST_RELEASE_SECONDS, MOST_RELEASE_SECONDS) {
            Some(seconds) => Ok(seconds),
            None => Err(OptionFault::ReleaseAge),
        },
    }
}

/// The seconds of a dispenser that is gone, that a word tells; the usual ones where there is none.
fn read_lost(lost: Option<&str>) -> Result<u64, OptionFault>
    ensures told { IfOk result (λ n. TellsLost (option_map (λ w. w.now) lost.entry) n) }
    ensures other { IfErr result (λ fault.
        (fault ≡ OptionFault.Lost)
        × ((n : ℕ) → ¬ TellsLost (option_map (λ w. w.now) lost.entry) n)) }
{
    match lost {
        None => Ok(USUAL_LOST_SECONDS),
        Some(word) => match number_in(word, 0, MOST_LOST_SECONDS) {
            Some(seconds) => Ok(seconds),
            None => Err(OptionFault::Lost),
        },
    }
}
