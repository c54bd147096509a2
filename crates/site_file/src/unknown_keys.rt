//! The keys that a table may have.

ghost use Rattle.std.specs.Prelude.{◌≡◌, not, find, option_copied, string_bytes, string_cmp};
ghost use Rattle.std.specs.BTreeMap.{keys, IsOrdered};
ghost use Rattle.toml.specs.View.{table_view};
ghost use Rattle.site_file.specs.Keys.{is_known};
ghost use Rattle.site_file.specs.Saying.{Gives};
ghost use Rattle.site_file.specs.SiteFile as spec;

use crate::fault::ConfigFault;
use crate::key::Key;
use crate::printable::PrintedKey;
use std::alloc::Global;
use toml::Table;

/// Checks that the table has only these keys. The fault is its least other key.
#[tactic(auto, using(crate::proofs::Trees::is_first), unfolding(crate::specs::SiteFile::with_keys))]
pub fn with_keys(alloc: Global, table: &Table, known: &[Key]) -> Result<(), ConfigFault>
    ensures { Gives (λ _. table_view table.now) result
        (spec.with_keys known.now (table_view table.now)) }
{
    // A table's keys ascend, so the first unknown one is the least.
    match first_unknown(table, known) {
        Some(key) => Err(ConfigFault::UnknownKey(PrintedKey::new(alloc, key.as_bytes())?)),
        None => Ok(()),
    }
}

fn first_unknown<'a>(table: &'a Table, known: &[Key]) -> Option<&'a String>
    ensures first { option_copied result
        ≡ find (λ key. not (is_known known.now (string_bytes key))) (keys table.now) }
    ensures ordered { IsOrdered string_cmp table.now }
{
    table.keys().find(|key| !is_known(key.as_str(), known))
}

fn is_known(text: &str, known: &[Key]) -> bool
    ensures { result ≡ is_known known.now text.now }
{
    known.iter().any(|key| text == key.text())
}
