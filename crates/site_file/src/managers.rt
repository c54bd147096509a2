//! The tills that are managers.

ghost use Rattle.std.specs.Prelude.{◌≡◌, [], nat_eq, option_map};
ghost use Rattle.std.specs.List.{list_any};
ghost use Rattle.toml.specs.View.{view, items_view};
ghost use Rattle.site_file.specs.Saying.{Gives};
ghost use Rattle.site_file.specs.SiteFile as spec;

use crate::fault::ConfigFault;
use crate::key::Key;
use crate::values::{list, number_in};
use site_base::{TILLS, TillNo};
use std::alloc::Global;
use toml::Value;

/// Returns the tills of the list, none twice; none if there is no list.
#[tactic(auto, unfolding(crate::specs::SiteFile::managers_of))]
pub fn managers_of(alloc: Global, value: Option<&Value>) -> Result<Vec<TillNo>, ConfigFault>
    ensures { Gives (λ v. v.items) result
        (spec.managers_of (option_map (λ v. view v.now) value.entry)) }
{
    match value {
        Some(value) => managers_in(alloc, list(value, Key::Managers)?),
        None => Ok(Vec::new(alloc)),
    }
}

fn managers_in(alloc: Global, members: &[Value]) -> Result<Vec<TillNo>, ConfigFault>
    ensures { Gives (λ v. v.items) result (spec.managers_from [] (items_view members.now)) }
{
    let mut managers = Vec::new(alloc);
    for member in members {
        managers.push(manager_of(&managers, member)?)?;
    }
    Ok(managers)
}

/// A till that isn't among those taken.
#[tactic(auto, unfolding(crate::specs::SiteFile::manager_of))]
fn manager_of(taken: &[TillNo], value: &Value) -> Result<TillNo, ConfigFault>
    ensures { Gives (λ t. t) result (spec.manager_of taken.now (view value.now)) }
{
    let number = number_in(value, Key::Managers, 1, u64::from(TILLS))?;
    let till = TillNo::new(number as u8).unwrap();
    if is_among(till, taken) {
        Err(ConfigFault::Repeated(Key::Managers))
    } else {
        Ok(till)
    }
}

fn is_among(till: TillNo, taken: &[TillNo]) -> bool
    ensures { result ≡ list_any (nat_eq till) taken.now }
{
    taken.iter().any(|other| till.get() == other.get())
}
