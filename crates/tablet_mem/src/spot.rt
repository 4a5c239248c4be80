// Places in the order of keys.
ghost use Rattle.std.specs.Prelude.{◌≡◌, IfOk};
ghost use Rattle.std.specs.Option.{option_copied};
ghost use Rattle.tablet_mem.specs.Index.{spot_of, past_row, start_of, end_of};

use row_keys::{Key, Octets, Row};
use std::alloc::{AllocError, Global};
use std::ops::Bound;

/// A place in the order of keys. Its row may be of any length, so that each bound of a range of rows is one.
#[derive(PartialEq, Eq, PartialOrd, Ord, Drop)]
pub struct Spot {
    row: Octets,
    family: Octets,
    qualifier: Octets,
}

impl Spot {
    /// The spot of a key. Takes memory for a copy.
    pub fn of(alloc: Global, key: &Key) -> Result<Spot, AllocError>
        ensures { IfOk result (λ spot. spot ≡ spot_of key.now) }
    {
        Ok(Spot {
            row: Octets::new(alloc, key.row.as_bytes())?,
            family: key.family.copy(alloc)?,
            qualifier: key.qualifier.copy(alloc)?,
        })
    }

    /// The same spot again. Takes memory for a copy.
    pub fn copy(&self, alloc: Global) -> Result<Spot, AllocError>
        ensures { IfOk result (λ spot. spot ≡ self.now) }
    {
        Ok(Spot {
            row: self.row.copy(alloc)?,
            family: self.family.copy(alloc)?,
            qualifier: self.qualifier.copy(alloc)?,
        })
    }

    /// The first spot past all keys of a row. Takes memory for it.
    fn past(alloc: Global, row: &Row) -> Result<Spot, AllocError>
        ensures { IfOk result (λ spot. spot ≡ past_row row.now) }
    {
        let mut bytes = row.as_bytes().to_vec(alloc)?;
        bytes.push(0)?;
        Ok(Spot {
            row: Octets::from_vec(bytes),
            family: Octets::from_vec(Vec::new(alloc)),
            qualifier: Octets::from_vec(Vec::new(alloc)),
        })
    }
}

/// Where the keys of rows above this one begin.
pub fn start_of(alloc: Global, low: Option<&Row>) -> Result<Bound<Spot>, AllocError>
    ensures { IfOk result (λ bound. bound ≡ start_of (option_copied low.entry)) }
{
    match low {
        Some(row) => Ok(Bound::Included(Spot::past(alloc, row)?)),
        None => Ok(Bound::Unbounded),
    }
}

/// Where the keys of rows up to this one and at it end.
pub fn end_of(alloc: Global, high: Option<&Row>) -> Result<Bound<Spot>, AllocError>
    ensures { IfOk result (λ bound. bound ≡ end_of (option_copied high.entry)) }
{
    match high {
        Some(row) => Ok(Bound::Excluded(Spot::past(alloc, row)?)),
        None => Ok(Bound::Unbounded),
    }
}
