//! Seals: each is the SHA-256 of the seal before it and of the octets after the line of that one.

ghost use Rattle.std.specs.Prelude.{◌≡◌, ◌++◌, ℕ, IfOk, List, string_bytes};
ghost use Rattle.hex.specs.Hex.{encode_lower};
ghost use Rattle.sha2.specs.Sha256.{sha256};
ghost use Rattle.chapters.specs.Seals.{Covers};

use sha2::{Digest, Sha256};
use site_base::NoMemory;
use std::alloc::Global;
use std::marker::Model;

/// What the next seal covers: the seal before it, and the octets after the line of that one.
#[derive(Drop)]
pub struct Unsealed {
    hasher: Sha256,
}

impl Model for Unsealed {
    ghost use Rattle.sha2.specs.declared.Sha256.{Sha256};

    ghost Value = { Sha256 };

    ghost view = { λ u. u.hasher };
}

impl Unsealed {
    /// Returns what a seal covers right after the line of this seal: no octets yet.
    pub fn behind(seal: &[u8]) -> Unsealed
        ensures { Covers result seal.now }
    {
        Unsealed {
            hasher: Sha256::new_with_prefix(seal),
        }
    }

    /// Adds these octets to what the next seal covers.
    pub fn cover(&mut self, octets: &[u8])
        ensures { (m : List ℕ) → Covers self.old m → Covers self.new (m ++ octets.now) }
    {
        self.hasher.update(octets);
    }

    /// Returns the seal of all that, in digits. The next one covers no octets yet.
    pub fn seal(&mut self, alloc: Global) -> Result<String, NoMemory>
        ensures seal { IfOk result (λ seal. (m : List ℕ) → Covers self.old m
            → string_bytes seal ≡ encode_lower (sha256 m)) }
        ensures behind { IfOk result (λ seal. Covers self.new (string_bytes seal)) }
    {
        let seal = hex::encode(alloc, self.hasher.finalize_reset())?;
        self.hasher.update(seal.as_bytes());
        Ok(seal)
    }
}
