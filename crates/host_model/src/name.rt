// The name of a file.
ghost use Rattle.std.specs.Prelude.{◌≡◌, IfOk, MatchBool, MatchOption, Some, nat_eq, refl};
ghost use Rattle.std.specs.List.{list_all};
ghost use Rattle.std.specs.Ordering.{nat_cmp};
ghost use Rattle.std.specs.Cmp.{partial_equiv_from_equiv};
ghost use Rattle.std.specs.Cmp.Lexicographic.{nat_list_eq_equiv, nat_list_cmp_total, pointwise, slice_cmp, texts_ties, texts_po};
ghost use Rattle.host_model.specs.FileName.{IsFileName, is_name_byte};

use std::alloc::{AllocError, Global};
use std::cmp::Ordering;
use std::marker::Model;

const MAX_NAME: usize = 120;

/// The name of a file: 1 to 120 letters, digits or `. _ - + ! ,`. Contracts see its bytes.
///
/// Names are equal, and ordered, by their bytes. The form is this project's own.
#[derive(Debug, Drop)]
pub struct Name {
    bytes: Vec<u8>,
}

impl Model for Name {
    ghost use Rattle.std.specs.Prelude.{List, ℕ};
    ghost use Rattle.host_model.specs.FileName.{IsFileName};

    ghost Value = { List ℕ };

    ghost view = { λ name. name.bytes.items };

    ghost invariant = { λ name. IsFileName name.bytes.items };
}

fn is_name_byte(byte: u8) -> bool
    ensures { result ≡ is_name_byte byte }
{
    byte.is_ascii_alphanumeric() || matches!(byte, b'.' | b'_' | b'-' | b'+' | b'!' | b',')
}

fn are_name_bytes(bytes: &[u8]) -> bool
    ensures { result ≡ list_all is_name_byte bytes.now }
{
    bytes.iter().all(|byte| is_name_byte(*byte))
}

fn is_file_name(bytes: &[u8]) -> bool
    ensures { MatchBool result (IsFileName bytes.now) (IsFileName bytes.now → ⊥) }
{
    !bytes.is_empty() && bytes.len() <= MAX_NAME && are_name_bytes(bytes)
}

impl Name {
    /// The name that this text is, or none exactly where it is of another form. Takes memory for a copy.
    pub fn new(alloc: Global, text: &str) -> Result<Option<Name>, AllocError>
        ensures { IfOk result (λ found. MatchOption found (IsFileName text.now → ⊥) (λ name. name ≡ text.now)) }
    {
        let bytes = text.as_bytes();
        if !is_file_name(bytes) {
            return Ok(None);
        }
        Ok(Some(Name {
            bytes: bytes.to_vec(alloc)?,
        }))
    }

    /// The same name again. Takes memory for a copy.
    pub fn copy(&self, alloc: Global) -> Result<Name, AllocError>
        ensures { IfOk result (λ name. name ≡ self.now) }
    {
        Ok(Name {
            bytes: self.bytes.as_slice().to_vec(alloc)?,
        })
    }

    /// Its bytes, which are ASCII. Takes no memory.
    pub fn as_bytes(&self) -> &[u8]
        ensures bytes { result.now ≡ self.now }
        ensures form { IsFileName self.now }
    {
        &self.bytes
    }
}

impl PartialEq for Name {
    ghost eq = { pointwise nat_eq };

    ghost laws = { partial_equiv_from_equiv nat_list_eq_equiv };

    fn eq(&self, other: &Name) -> bool {
        self.bytes.as_slice() == other.bytes.as_slice()
    }
}

impl Eq for Name {
    ghost laws = { nat_list_eq_equiv };
}

impl PartialOrd for Name {
    ghost partial_cmp = { λ a b. Some (slice_cmp nat_cmp a b) };

    ghost laws = { texts_po };

    fn partial_cmp(&self, other: &Name) -> Option<Ordering> {
        Some(self.cmp(other))
    }
}

impl Ord for Name {
    ghost cmp = { slice_cmp nat_cmp };

    ghost total = { nat_list_cmp_total };

    ghost matches_partial_cmp = { λ a b. refl };

    ghost matches_eq = { texts_ties };

    fn cmp(&self, other: &Name) -> Ordering {
        self.bytes.as_slice().cmp(other.bytes.as_slice())
    }
}
