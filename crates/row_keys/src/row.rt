// A row of a table.
ghost use Rattle.std.specs.Prelude.{◌≡◌, ◌≤◌, ◌<◌, ◌↔◌, IfOk, IsErrOf, length};
ghost use Rattle.row_keys.specs.declared.row.KeyForm.TheVariants.{TooLong, NoMemory};

use crate::octets::Octets;
use std::alloc::{AllocError, Global};
use std::marker::Model;
use thiserror::Error;

pub(crate) const MAX_ROW: usize = 300;

/// What is wrong with the bytes of a row, or of what is spelled in one.
#[derive(Clone, Copy, Debug, PartialEq, Eq, Drop, Error)]
pub enum KeyForm {
    /// A row of more than 300 bytes.
    #[error("a row of more than 300 bytes")]
    TooLong,
    /// A metadata row without `;` or `<` behind its table id.
    #[error("a metadata row without its mark")]
    NoMark,
    /// A previous row that isn't spelled as one.
    #[error("a previous row that isn't spelled as one")]
    BadPrev,
    /// No memory for it.
    #[error("out of memory")]
    NoMemory,
}

impl From<AllocError> for KeyForm {
    ghost from_gives = { λ _ form. form ≡ NoMemory };

    fn from(_: AllocError) -> Self {
        KeyForm::NoMemory
    }
}

/// A row: at most 300 bytes. Contracts see them as a list. Equal, ordered and hashed by the bytes.
#[derive(Debug, PartialEq, Eq, PartialOrd, Ord, Hash, Drop)]
pub struct Row {
    octets: Octets,
}

impl Model for Row {
    ghost use Rattle.std.specs.Prelude.{List, ℕ, ◌≤◌, length};

    ghost Value = { List ℕ };

    ghost view = { λ row. row.octets };

    ghost invariant = { λ row. length row.octets ≤ 300 };

    ghost inverse = { λ bytes. record { octets = bytes } };
}

impl Row {
    /// A copy of these bytes. `TooLong` comes exactly where there are more than 300, and beside it `NoMemory` alone.
    pub fn new(alloc: Global, bytes: &[u8]) -> Result<Row, KeyForm>
        ensures ok { IfOk result (λ row. row ≡ bytes.now) }
        ensures too_long { IsErrOf result TooLong ↔ (300 < length bytes.now) }
        ensures no_mark { IsErrOf result KeyForm.NoMark → ⊥ }
        ensures bad_prev { IsErrOf result KeyForm.BadPrev → ⊥ }
    {
        if bytes.len() > MAX_ROW {
            return Err(KeyForm::TooLong);
        }
        Ok(Row {
            octets: Octets::new(alloc, bytes)?,
        })
    }

    /// The same row again. Takes memory for a copy.
    pub fn copy(&self, alloc: Global) -> Result<Row, AllocError>
        ensures { IfOk result (λ row. row ≡ self.now) }
    {
        Ok(Row {
            octets: self.octets.copy(alloc)?,
        })
    }

    /// The row of these bytes. Takes no memory.
    pub fn from_octets(octets: Octets) -> Row
        requires { length octets ≤ 300 }
        ensures { result ≡ octets }
    {
        Row { octets }
    }

    /// The bytes. Takes no memory.
    pub fn as_bytes(&self) -> &[u8]
        ensures bytes { result.now ≡ self.now }
        ensures form { length self.now ≤ 300 }
    {
        self.octets.as_bytes()
    }
}
