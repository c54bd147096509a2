//! Reads the text of a site file.

ghost use Rattle.toml.specs.View.{table_view};
ghost use Rattle.site_file.specs.Saying.{Gives};
ghost use Rattle.site_file.specs.SiteFile as spec;

use crate::fault::ConfigFault;
use crate::site::site_of;
use site_base::SiteConfig;
use std::alloc::Global;
use toml::Table;

/// Returns the site that a site file configures, or its first fault. For a table the unknown keys
/// come first, then its keys in the order of the site file's table: whether one is there, is of its
/// kind, is in its range, isn't repeated, and whether a nozzle's product is there. `NoMemory` only
/// if an allocation failed in the call.
#[tactic(auto, unfolding(crate::specs::SiteFile::config_of))]
pub fn read_config(alloc: Global, octets: &[u8]) -> Result<SiteConfig, ConfigFault>
    ensures { Gives (λ c. c) result (spec.config_of octets.now) }
{
    let file = tree_of(alloc, octets)?;
    site_of(alloc, &file)
}

/// The tree of the octets. Those that aren't UTF-8, or that `toml` refuses for another cause than
/// memory, are no TOML.
#[tactic(auto, unfolding(crate::specs::SiteFile::tree_of))]
fn tree_of(alloc: Global, octets: &[u8]) -> Result<Table, ConfigFault>
    ensures { Gives (λ t. table_view t) result (spec.tree_of octets.now) }
{
    match toml::table_from_slice(alloc, octets) {
        Ok(file) => Ok(file),
        Err(e) => {
            if e.is_memory() {
                Err(ConfigFault::NoMemory)
            } else {
                Err(ConfigFault::NotToml)
            }
        }
    }
}
