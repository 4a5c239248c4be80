// Whether mutations are the same.
ghost use Rattle.std.specs.Prelude.{◌≡◌, map, MatchBool};

use metadata_schema::{Mutation, Update};

fn is_same_update(one: &Update, other: &Update) -> bool
    ensures { MatchBool result (one.now ≡ other.now) (one.now ≡ other.now → ⊥) }
{
    one.family == other.family && one.qualifier == other.qualifier && one.value == other.value
}

fn are_same_updates(one: &[Update], other: &[Update]) -> bool
    ensures { MatchBool result (one.now ≡ other.now) (one.now ≡ other.now → ⊥) }
{
    if one.len() != other.len() {
        return false;
    }
    for (at, update) in one.iter().enumerate() {
        if !is_same_update(update, &other[at]) {
            return false;
        }
    }
    true
}

fn is_same(one: &Mutation, other: &Mutation) -> bool
    ensures { MatchBool result (one.now ≡ other.now) (one.now ≡ other.now → ⊥) }
{
    one.table == other.table
        && one.row == other.row
        && one.time == other.time
        && are_same_updates(one.updates.as_slice(), other.updates.as_slice())
}

/// Whether the mutations are the same, in the same order.
pub fn are_same(one: &[&Mutation], other: &[Mutation]) -> bool
    ensures { MatchBool result (map (λ mutation. mutation.now) one.now ≡ other.now) (map (λ mutation. mutation.now) one.now ≡ other.now → ⊥) }
{
    if one.len() != other.len() {
        return false;
    }
    for (at, mutation) in one.iter().enumerate() {
        if !is_same(mutation, &other[at]) {
            return false;
        }
    }
    true
}
