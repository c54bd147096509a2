//! One value of a table: whether it is there, of its kind, and in its range.

ghost use Rattle.std.specs.Prelude.{◌≡◌, ◌≤◌, IfOk, option_map, string_bytes};
ghost use Rattle.toml.specs.Data.{get_member};
ghost use Rattle.toml.specs.View.{view, array_view, table_view};
ghost use Rattle.site_file.specs.Keys.{key_text};
ghost use Rattle.site_file.specs.Saying.{Gives};
ghost use Rattle.site_file.specs.SiteFile as spec;

use crate::fault::ConfigFault;
use crate::key::Key;
use toml::value::Array;
use toml::{Table, Value};

/// Returns the value at a key, if there is one.
pub fn found_at(table: &Table, key: Key) -> Option<&Value>
    ensures { option_map (λ v. view v.now) result
        ≡ get_member (key_text key) (table_view table.now) }
{
    table.get(key.text())
}

/// Returns the value at a key, which must be there.
#[tactic(auto, unfolding(crate::specs::SiteFile::value_at))]
pub fn value_at(table: &Table, key: Key) -> Result<&Value, ConfigFault>
    ensures { Gives (λ v. view v.now) result (spec.value_at key (table_view table.now)) }
{
    match found_at(table, key) {
        Some(value) => Ok(value),
        None => Err(ConfigFault::MissingKey(key)),
    }
}

/// Returns the value as a whole number.
pub fn read_whole(value: &Value, key: Key) -> Result<i64, ConfigFault>
    ensures { Gives (λ z. z) result (spec.whole_number key (view value.now)) }
{
    match value {
        Value::Integer(number) => Ok(*number),
        _ => Err(ConfigFault::WrongKind(key)),
    }
}

/// Returns the value as a text.
pub fn text(value: &Value, key: Key) -> Result<&String, ConfigFault>
    ensures { Gives (λ s. string_bytes s.now) result (spec.text key (view value.now)) }
{
    match value {
        Value::String(text) => Ok(text),
        _ => Err(ConfigFault::WrongKind(key)),
    }
}

/// Returns the value as a list.
pub fn list(value: &Value, key: Key) -> Result<&Array, ConfigFault>
    ensures { Gives (λ a. array_view a.now) result (spec.list key (view value.now)) }
{
    match value {
        Value::Array(list) => Ok(list),
        _ => Err(ConfigFault::WrongKind(key)),
    }
}

/// Returns the value as a table.
pub fn table(value: &Value, key: Key) -> Result<&Table, ConfigFault>
    ensures { Gives (λ t. table_view t.now) result (spec.table_of key (view value.now)) }
{
    match value {
        Value::Table(table) => Ok(table),
        _ => Err(ConfigFault::WrongKind(key)),
    }
}

/// Returns a number from low to high.
pub fn read_within(number: i64, key: Key, low: u64, high: u64) -> Result<u64, ConfigFault>
    ensures said { Gives (λ n. n) result (spec.in_range key low high number) }
    ensures range { IfOk result (λ n. (low ≤ n) × (n ≤ high)) }
{
    match u64::try_from(number) {
        Ok(number) => {
            if low <= number && number <= high {
                Ok(number)
            } else {
                Err(ConfigFault::OutOfRange(key))
            }
        }
        Err(_) => Err(ConfigFault::OutOfRange(key)),
    }
}

/// Returns the value as a whole number from low to high.
#[tactic(auto, unfolding(crate::specs::SiteFile::number_in))]
pub fn number_in(value: &Value, key: Key, low: u64, high: u64) -> Result<u64, ConfigFault>
    ensures said { Gives (λ n. n) result (spec.number_in key low high (view value.now)) }
    ensures range { IfOk result (λ n. (low ≤ n) × (n ≤ high)) }
{
    let number = read_whole(value, key)?;
    read_within(number, key, low, high)
}

/// Returns the whole number from low to high at a key, which must be there.
#[tactic(auto, unfolding(crate::specs::SiteFile::number_at))]
pub fn number_at(table: &Table, key: Key, low: u64, high: u64) -> Result<u64, ConfigFault>
    ensures said { Gives (λ n. n) result (spec.number_at key low high (table_view table.now)) }
    ensures range { IfOk result (λ n. (low ≤ n) × (n ≤ high)) }
{
    let value = value_at(table, key)?;
    number_in(value, key, low, high)
}

/// Returns the list of 1 to `most` members at a key, which must be there.
#[tactic(auto, using(crate::proofs::Trees::item_count), unfolding(crate::specs::SiteFile::list_at))]
pub fn list_at(table: &Table, key: Key, most: usize) -> Result<&Array, ConfigFault>
    ensures { Gives (λ a. array_view a.now) result (spec.list_at key most (table_view table.now)) }
{
    let value = value_at(table, key)?;
    let list = list(value, key)?;
    if 1 <= list.len() && list.len() <= most {
        Ok(list)
    } else {
        Err(ConfigFault::OutOfRange(key))
    }
}
