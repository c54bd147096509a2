//! The site in a site file's tree.

ghost use Rattle.std.specs.Prelude.{◌≡◌, ◌≤◌, option_map};
ghost use Rattle.toml.specs.View.{view, table_view};
ghost use Rattle.site_file.specs.Saying.{Gives};
ghost use Rattle.site_file.specs.SiteFile as spec;

use crate::fault::ConfigFault;
use crate::key::Key;
use crate::managers::managers_of;
use crate::points::points_of;
use crate::products::products_of;
use crate::unknown_keys::with_keys;
use crate::values::{found_at, number_in};
use site_base::{GREATEST_ROWS, SiteConfig};
use std::alloc::Global;
use toml::{Table, Value};

/// Returns the site in the tree of a site file, or its first fault.
#[tactic(auto, unfolding(crate::specs::SiteFile::site_of))]
pub fn site_of(alloc: Global, file: &Table) -> Result<SiteConfig, ConfigFault>
    ensures { Gives (λ c. c) result (spec.site_of (table_view file.now)) }
{
    with_keys(
        alloc,
        file,
        &[Key::Rows, Key::Managers, Key::Product, Key::Point],
    )?;
    let rows = rows_of(found_at(file, Key::Rows))?;
    let managers = managers_of(alloc, found_at(file, Key::Managers))?;
    let products = products_of(alloc, file)?;
    let points = points_of(alloc, &products, file)?;
    let products = products.into_list(alloc)?;
    Ok(SiteConfig::try_new(rows, managers, products, points).unwrap())
}

/// The most rows that are in memory at once; the greatest number where there is none.
fn rows_of(value: Option<&Value>) -> Result<u32, ConfigFault>
    ensures { Gives (λ n. n) result (spec.rows_of (option_map (λ v. view v.now) value.entry)) }
{
    match value {
        Some(value) => Ok(number_in(value, Key::Rows, 1, u64::from(GREATEST_ROWS))? as u32),
        None => Ok(GREATEST_ROWS),
    }
}
