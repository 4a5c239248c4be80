// Names and ids: bytes of one form.
ghost use Rattle.std.specs.Prelude.{◌≡◌, IfOk, OnErr, OnSome, MatchBool, MatchOption, Some, List, ℕ, nat_eq, refl};
ghost use Rattle.std.proofs.Common.{rules};
ghost use Rattle.std.specs.Ordering.{nat_cmp};
ghost use Rattle.std.specs.Cmp.{partial_equiv_from_equiv};
ghost use Rattle.std.specs.Cmp.Lexicographic.{nat_list_eq_equiv, nat_list_cmp_total, pointwise, slice_cmp, texts_ties, texts_po};
ghost use Rattle.std.specs.Cmp.Rules.{hashing};
ghost use Rattle.std.specs.Hash as fed;

use std::alloc::{AllocError, Global};
use std::cmp::Ordering;
use std::hash::{Hash, Hasher};
use std::marker::{Model, PhantomData};

/// A form that bytes may have.
pub trait Form {
    /// The bytes that are of it.
    ghost is_form: { List ℕ → Type 0 };

    /// Whether these bytes are of the form. Takes no memory.
    fn accepts(bytes: &[u8]) -> bool
        ensures { MatchBool result (is_form bytes.now) (is_form bytes.now → ⊥) };
}

/// Bytes of the form `F`. Contracts see them as a list. Equal, ordered and hashed by the bytes.
#[derive(Debug, Drop)]
pub struct Spelled<F: Form> {
    bytes: Vec<u8>,
    form: PhantomData<F>,
}

impl<F: Form> Model for Spelled<F> {
    ghost use Rattle.std.specs.Prelude.{List, ℕ};

    ghost Value = { List ℕ };

    ghost view = { λ spelled. spelled.bytes.items };

    ghost invariant = { λ spelled. F.is_form spelled.bytes.items };
}

impl<F: Form> Spelled<F> {
    /// A copy of these bytes, or none exactly where they aren't of the form: want of memory comes only where they are.
    pub fn new(alloc: Global, bytes: &[u8]) -> Result<Option<Self>, AllocError>
        ensures ok { IfOk result (λ found. MatchOption found (F.is_form bytes.now → ⊥) (λ spelled. spelled ≡ bytes.now)) }
        ensures form { IfOk result (λ found. OnSome found (F.is_form bytes.now)) }
        ensures err { OnErr result (F.is_form bytes.now) }
    {
        if !F::accepts(bytes) {
            return Ok(None);
        }
        Ok(Some(Spelled {
            bytes: bytes.to_vec(alloc)?,
            form: PhantomData,
        }))
    }

    /// The same bytes again. Takes memory for a copy.
    pub fn copy(&self, alloc: Global) -> Result<Self, AllocError>
        ensures ok { IfOk result (λ spelled. spelled ≡ self.now) }
        ensures form { F.is_form self.now }
    {
        Ok(Spelled {
            bytes: self.bytes.as_slice().to_vec(alloc)?,
            form: PhantomData,
        })
    }

    /// The bytes. Takes no memory.
    pub fn as_bytes(&self) -> &[u8]
        ensures bytes { result.now ≡ self.now }
        ensures form { F.is_form self.now }
    {
        &self.bytes
    }
}

impl<F: Form> PartialEq for Spelled<F> {
    ghost eq = { pointwise nat_eq };

    ghost laws = { partial_equiv_from_equiv nat_list_eq_equiv };

    fn eq(&self, other: &Spelled<F>) -> bool {
        self.bytes.as_slice() == other.bytes.as_slice()
    }
}

impl<F: Form> Eq for Spelled<F> {
    ghost laws = { nat_list_eq_equiv };
}

impl<F: Form> PartialOrd for Spelled<F> {
    ghost partial_cmp = { λ a b. Some (slice_cmp nat_cmp a b) };

    ghost laws = { texts_po };

    fn partial_cmp(&self, other: &Spelled<F>) -> Option<Ordering> {
        Some(self.cmp(other))
    }
}

impl<F: Form> Ord for Spelled<F> {
    ghost cmp = { slice_cmp nat_cmp };

    ghost total = { nat_list_cmp_total };

    ghost matches_partial_cmp = { λ a b. refl };

    ghost matches_eq = { texts_ties };

    fn cmp(&self, other: &Spelled<F>) -> Ordering {
        self.bytes.as_slice().cmp(other.bytes.as_slice())
    }
}

impl<F: Form> Hash for Spelled<F> {
    ghost hash_input = { λ spelled. fed.slice fed.u8 spelled };

    ghost respects_eq = { Prim.search (hashing, rules) };

    fn hash<H: Hasher>(&self, state: &mut H) {
        self.bytes.as_slice().hash(state);
    }
}
