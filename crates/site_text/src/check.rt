//! The text of a configuration, which is read back before it is returned.

ghost use Rattle.std.specs.Prelude.{◌≡◌, IfOk, Ok, string_bytes};
ghost use Rattle.site_file.specs.SiteFile.{config_of};
ghost use Rattle.site_text.specs.SiteText.{site_text};

use crate::same::is_same_site;
use crate::text::site_text;
use site_base::{NoMemory, SiteConfig};
use site_file::{ConfigFault, read_config};
use std::alloc::Global;
use thiserror::Error;

/// Why the text of a configuration isn't returned.
#[derive(Clone, Copy, Debug, PartialEq, Eq, Error)]
pub enum TextFault {
    /// An allocation failed.
    #[error("out of memory")]
    NoMemory,
    /// The text isn't read back as the same configuration.
    #[error("the text of the site file isn't read back as the same site")]
    ReadOtherwise,
}

impl From<NoMemory> for TextFault {
    ghost use Rattle.std.specs.Prelude.{◌≡◌};
    ghost use Rattle.site_text.specs.declared.check.TextFault.{TextFault};

    ghost from_gives = { λ _ e. e ≡ TextFault.NoMemory };

    fn from(_e: NoMemory) -> TextFault {
        TextFault::NoMemory
    }
}

/// Returns the text of a site file with this complete configuration, after reading it back as a
/// site file. `ReadOtherwise` if that didn't give the same configuration.
pub fn checked_text(alloc: Global, config: &SiteConfig) -> Result<String, TextFault>
    ensures text { IfOk result (λ text. string_bytes text ≡ site_text config.now) }
    ensures read { IfOk result (λ text. config_of (string_bytes text) ≡ Ok config.now) }
{
    let text = site_text(alloc, config)?;
    match read_config(alloc, text.as_str().as_bytes()) {
        Ok(read) => {
            if is_same_site(&read, config) {
                Ok(text)
            } else {
                Err(TextFault::ReadOtherwise)
            }
        }
        Err(ConfigFault::NoMemory) => Err(TextFault::NoMemory),
        Err(_) => Err(TextFault::ReadOtherwise),
    }
}
