ghost use Rattle.std.specs.Prelude.{◌≡◌, ◌↔◌, IfOk};
ghost use Rattle.std.specs.List.{list_all};
ghost use Rattle.nal_term.specs.Secrets.{IsSecret, is_secret, is_secret_byte};
ghost use Rattle.nal_term.specs.declared.names.NameError.TheVariants.{Bad};

use crate::names::NameError;
use std::alloc::{AllocError, Global};
use std::marker::Model;

/// A secret that a principal proves itself by: 1 to 64 bytes from 0x21 to 0x7E. Contracts see the
/// list of its bytes. `docs/FORMATS.md`, "Tokens", states the rule.
#[derive(Drop)]
pub struct Secret {
    bytes: Vec<u8>,
}

impl Model for Secret {
    ghost use Rattle.std.specs.Prelude.{ℕ, List};
    ghost use Rattle.nal_term.specs.Secrets.{IsSecret};

    ghost Value = { List ℕ };

    ghost view = { λ s. s.bytes.items };

    ghost invariant = { λ s. IsSecret s.bytes.items };
}

impl Secret {
    /// The secret of these bytes, copied. `Bad` exactly where they are no secret.
    pub fn of(alloc: Global, bytes: &[u8]) -> Result<Secret, NameError>
        ensures made { IfOk result (λ secret. secret ≡ bytes.now) }
        ensures secret { IfOk result (λ _. IsSecret bytes.now) }
        ensures bad { (result ≡ Err Bad) ↔ ¬ IsSecret bytes.now }
    {
        if !is_secret(bytes) {
            return Err(NameError::Bad);
        }
        match Vec::from_slice(alloc, bytes) {
            Ok(bytes) => Ok(Secret { bytes }),
            Err(AllocError) => Err(NameError::Memory),
        }
    }

    /// A copy of the secret. An `Err` says that there was no memory for it.
    pub fn copy(&self, alloc: Global) -> Result<Secret, AllocError>
        ensures { IfOk result (λ copy. copy ≡ self.now) }
    {
        let bytes = Vec::from_slice(alloc, self.bytes.as_slice())?;
        Ok(Secret { bytes })
    }

    /// The bytes of the secret.
    pub fn as_slice(&self) -> &[u8]
        ensures bytes { result.now ≡ self.now }
        ensures secret { IsSecret result.now }
    {
        self.bytes.as_slice()
    }
}

/// Whether the bytes are a secret.
pub fn is_secret(bytes: &[u8]) -> bool
    ensures { result ≡ is_secret bytes.now }
{
    are_secret_bytes(bytes) && !bytes.is_empty() && bytes.len() <= 64
}

fn are_secret_bytes(bytes: &[u8]) -> bool
    ensures { result ≡ list_all is_secret_byte bytes.now }
{
    bytes.iter().all(|byte| is_secret_byte(*byte))
}

const fn is_secret_byte(byte: u8) -> bool
    ensures { result ≡ is_secret_byte byte }
{
    matches!(byte, b'!'..=b'~')
}
