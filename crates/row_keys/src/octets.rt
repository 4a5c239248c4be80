// Any bytes.
ghost use Rattle.std.specs.Prelude.{◌≡◌, IfOk, Some, nat_eq, refl};
ghost use Rattle.std.proofs.Common.{rules};
ghost use Rattle.std.specs.Ordering.{nat_cmp};
ghost use Rattle.std.specs.Cmp.{partial_equiv_from_equiv};
ghost use Rattle.std.specs.Cmp.Lexicographic.{nat_list_eq_equiv, nat_list_cmp_total, pointwise, slice_cmp, texts_ties, texts_po};
ghost use Rattle.std.specs.Cmp.Rules.{hashing};
ghost use Rattle.std.specs.Hash as fed;

use std::alloc::{AllocError, Global};
use std::cmp::Ordering;
use std::hash::{Hash, Hasher};
use std::marker::Model;

/// Any bytes. Contracts see them as a list. Equal, ordered and hashed by the bytes.
#[derive(Debug, Drop)]
pub struct Octets {
    bytes: Vec<u8>,
}

impl Model for Octets {
    ghost use Rattle.std.specs.Prelude.{List, ℕ};

    ghost Value = { List ℕ };

    ghost view = { λ octets. octets.bytes.items };
}

impl Octets {
    /// A copy of these bytes.
    pub fn new(alloc: Global, bytes: &[u8]) -> Result<Octets, AllocError>
        ensures { IfOk result (λ octets. octets ≡ bytes.now) }
    {
        Ok(Octets {
            bytes: bytes.to_vec(alloc)?,
        })
    }

    /// The same bytes again. Takes memory for a copy.
    pub fn copy(&self, alloc: Global) -> Result<Octets, AllocError>
        ensures { IfOk result (λ octets. octets ≡ self.now) }
    {
        Octets::new(alloc, &self.bytes)
    }

    /// The bytes of a vector. Takes no memory.
    pub fn from_vec(bytes: Vec<u8>) -> Octets
        ensures { result ≡ bytes.items }
    {
        Octets { bytes }
    }

    /// The bytes. Takes no memory.
    pub fn as_bytes(&self) -> &[u8]
        ensures { result.now ≡ self.now }
    {
        &self.bytes
    }
}

impl PartialEq for Octets {
    ghost eq = { pointwise nat_eq };

    ghost laws = { partial_equiv_from_equiv nat_list_eq_equiv };

    fn eq(&self, other: &Octets) -> bool {
        self.bytes.as_slice() == other.bytes.as_slice()
    }
}

impl Eq for Octets {
    ghost laws = { nat_list_eq_equiv };
}

impl PartialOrd for Octets {
    ghost partial_cmp = { λ a b. Some (slice_cmp nat_cmp a b) };

    ghost laws = { texts_po };

    fn partial_cmp(&self, other: &Octets) -> Option<Ordering> {
        Some(self.cmp(other))
    }
}

impl Ord for Octets {
    ghost cmp = { slice_cmp nat_cmp };

    ghost total = { nat_list_cmp_total };

    ghost matches_partial_cmp = { λ a b. refl };

    ghost matches_eq = { texts_ties };

    fn cmp(&self, other: &Octets) -> Ordering {
        self.bytes.as_slice().cmp(other.bytes.as_slice())
    }
}

impl Hash for Octets {
    ghost hash_input = { λ octets. fed.slice fed.u8 octets };

    ghost respects_eq = { Prim.search (hashing, rules) };

    fn hash<H: Hasher>(&self, state: &mut H) {
        self.bytes.as_slice().hash(state);
    }
}
