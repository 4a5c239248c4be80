// The kinds of columns, by their names.
ghost use Rattle.std.specs.Prelude.{◌≡◌, MatchBool, codes};
ghost use Rattle.metadata_schema.specs.Kinds.{kind_of, server_kind, tablet_kind, IsQualifier, IsColumn};

use crate::paths::is_file_path;
use row_keys::{Form, LogNameForm, SessionIdForm};

/// A kind of columns.
#[derive(Clone, Copy, Debug, Drop)]
pub(crate) enum Kind {
    Chopped,
    File,
    Future,
    Loaded,
    Loc,
    Log,
    Dir,
    Time,
    Merged,
    OldPrev,
    Prev,
}

fn server_kind(qualifier: &[u8]) -> Option<Kind>
    ensures { result ≡ server_kind qualifier.now }
{
    if qualifier == b"dir".as_slice() {
        Some(Kind::Dir)
    } else if qualifier == b"time".as_slice() {
        Some(Kind::Time)
    } else {
        None
    }
}

fn tablet_kind(qualifier: &[u8]) -> Option<Kind>
    ensures { result ≡ tablet_kind qualifier.now }
{
    if qualifier == b"merged".as_slice() {
        Some(Kind::Merged)
    } else if qualifier == b"oldprevrow".as_slice() {
        Some(Kind::OldPrev)
    } else if qualifier == b"~pr".as_slice() {
        Some(Kind::Prev)
    } else {
        None
    }
}

fn chopped_kind(qualifier: &[u8]) -> Option<Kind>
    ensures { result ≡ kind_of (codes "chopped") qualifier.now }
{
    if qualifier == b"chopped".as_slice() {
        Some(Kind::Chopped)
    } else {
        None
    }
}

/// The kind of the column of a family and qualifier.
pub(crate) fn kind_of(family: &[u8], qualifier: &[u8]) -> Option<Kind>
    ensures { result ≡ kind_of family.now qualifier.now }
{
    if family == b"chopped".as_slice() {
        chopped_kind(qualifier)
    } else if family == b"file".as_slice() {
        Some(Kind::File)
    } else if family == b"future".as_slice() {
        Some(Kind::Future)
    } else if family == b"loaded".as_slice() {
        Some(Kind::Loaded)
    } else if family == b"loc".as_slice() {
        Some(Kind::Loc)
    } else if family == b"log".as_slice() {
        Some(Kind::Log)
    } else if family == b"srv".as_slice() {
        server_kind(qualifier)
    } else if family == b"~tab".as_slice() {
        tablet_kind(qualifier)
    } else {
        None
    }
}

fn is_qualifier(kind: Kind, qualifier: &[u8]) -> bool
    ensures { MatchBool result (IsQualifier kind qualifier.now) (IsQualifier kind qualifier.now → ⊥) }
{
    match kind {
        Kind::File | Kind::Loaded => is_file_path(qualifier),
        Kind::Loc | Kind::Future => SessionIdForm::accepts(qualifier),
        Kind::Log => LogNameForm::accepts(qualifier),
        Kind::Chopped | Kind::Dir | Kind::Time | Kind::Merged | Kind::OldPrev | Kind::Prev => true,
    }
}

/// Whether the table of columns has this one.
pub(crate) fn is_column(family: &[u8], qualifier: &[u8]) -> bool
    ensures { MatchBool result (IsColumn family.now qualifier.now) (IsColumn family.now qualifier.now → ⊥) }
{
    match kind_of(family, qualifier) {
        Some(kind) => is_qualifier(kind, qualifier),
        None => false,
    }
}
