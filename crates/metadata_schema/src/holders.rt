// The columns `loc` and `future`.
ghost use Rattle.std.specs.Prelude.{◌≡◌, ◌++◌, ◌≤◌, ◌∷◌, [], OnOk, IfSome, MatchOption, MatchResult, length};
ghost use Rattle.std.specs.List.{All};
ghost use Rattle.std.specs.Option.{option_copied};
ghost use Rattle.metadata_schema.specs.Kinds.{IsColumn, IsValued, IsHolderFamily};
ghost use Rattle.metadata_schema.specs.Columns.{holder_columns, written};
ghost use Rattle.metadata_schema.specs.Records.{IsHolder};
ghost use Rattle.metadata_schema.specs.Refusals.{Refuses, of_family};

use crate::fault::SchemaFault;
use crate::mutation::{Update, written};
use crate::tablet::Holder;
use row_keys::{Octets, ServerName, SessionId};
use std::alloc::{AllocError, Global};

pub(crate) const LOC: &[u8] = b"loc";

pub(crate) const FUTURE: &[u8] = b"future";

/// The column of a family that has one at most.
fn only_of<'a>(updates: &'a [Update], family: &[u8]) -> Option<&'a Update>
    requires { length (of_family family.now updates.now) ≤ 1 }
    ensures { MatchOption result (of_family family.now updates.now ≡ []) (λ update. of_family family.now updates.now ≡ update.now ∷ []) }
{
    for update in updates {
        if update.family.as_bytes() == family {
            return Some(update);
        }
    }
    None
}

fn read_one(alloc: Global, update: &Update) -> Result<Holder, SchemaFault>
    requires family { IsHolderFamily update.now.family }
    requires column { IsColumn update.now.family update.now.qualifier }
    ensures { MatchResult result (λ holder. (written update.now.family holder.session holder.server ≡ update.now) × IsHolder holder) (Refuses (IsValued update.now)) }
{
    let Some(value) = &update.value else {
        return Err(SchemaFault::BadValue);
    };
    let Some(session) = SessionId::new(alloc, update.qualifier.as_bytes())? else {
        return Err(SchemaFault::BadValue);
    };
    let Some(server) = ServerName::new(alloc, value.as_bytes())? else {
        return Err(SchemaFault::BadValue);
    };
    Ok(Holder { session, server })
}

/// The holder in the columns of a family, which is `loc` or `future`.
pub(crate) fn read_holder(
    alloc: Global,
    updates: &[Update],
    family: &[u8],
) -> Result<Option<Holder>, SchemaFault>
    requires columns { All (λ update. IsColumn update.family update.qualifier) updates.now }
    requires one { length (of_family family.now updates.now) ≤ 1 }
    requires family { IsHolderFamily family.now }
    ensures { MatchResult result (λ holder. (holder_columns family.now holder ≡ of_family family.now updates.now) × IfSome holder IsHolder) (Refuses (All IsValued updates.now)) }
{
    match only_of(updates, family) {
        Some(update) => {
            let holder = read_one(alloc, update)?;
            Ok(Some(holder))
        }
        None => Ok(None),
    }
}

/// Adds the column of a holder.
pub(crate) fn push_holder(
    alloc: Global,
    columns: &mut Vec<Update>,
    family: &[u8],
    holder: Option<&Holder>,
) -> Result<(), AllocError>
    ensures { OnOk result (columns.new.items ≡ columns.old.items ++ holder_columns family.now (option_copied holder.entry)) }
{
    if let Some(holder) = holder {
        let server = Octets::new(alloc, holder.server.as_bytes())?;
        columns.push(written(alloc, family, holder.session.as_bytes(), server)?)?;
    }
    Ok(())
}
