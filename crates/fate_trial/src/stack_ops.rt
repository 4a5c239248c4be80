// The changes that push, pop and set a status.
ghost use Rattle.std.specs.Prelude.{◌≡◌, ◌++◌, ◌∷◌, [], None, IfOk, OnOk, MatchOption};
ghost use Rattle.fate_trial.specs.Layout.{slot_path, value_at};
ghost use Rattle.fate_trial.specs.Stored.{book_of, IsTopWords, IsFree, IsTopSlot, HasNoPlace, PushChanges, PopChanges, StatusChanges, taking, taken_out};
ghost use Rattle.fate_trial.specs.declared.layout.Slot.TheVariants.{Status, Lower, Upper};

use crate::changes::{creation, deletion, is_there, setting};
use crate::layout::{Slot, slot_path};
use crate::site::Site;
use crate::words::{kind_in, status_in, status_value, step_value, words_of};
use fate_runner::{Cause, StepWords, TxStatus};
use host_model::Host;
use node_store::NodeOp;
use row_keys::Octets;
use std::alloc::AllocError;

/// The words of the top step.
pub fn top_words<H: Host>(env: &Site<H>, tid: u64) -> Result<Option<StepWords>, AllocError>
    ensures { IfOk result (λ found. IsTopWords (book_of env.now.nodes.nodes tid).stack found) }
{
    if let Some(value) = env.slot(Slot::Upper, tid)? {
        return Ok(Some(words_of(env.alloc, value)?));
    }
    match env.slot(Slot::Lower, tid)? {
        Some(value) => Ok(Some(words_of(env.alloc, value)?)),
        None => Ok(None),
    }
}

/// The kind of the transaction.
pub fn kind<H: Host>(env: &Site<H>, tid: u64) -> Result<Octets, AllocError>
    ensures { IfOk result (λ kind. kind ≡ (book_of env.now.nodes.nodes tid).kind) }
{
    kind_in(env.alloc, env.slot(Slot::Status, tid)?)
}

/// The status of the transaction.
pub fn status<H: Host>(env: &Site<H>, tid: u64) -> Result<Option<TxStatus>, AllocError>
    ensures { IfOk result (λ status. status ≡ (book_of env.now.nodes.nodes tid).status) }
{
    Ok(status_in(env.slot(Slot::Status, tid)?))
}

/// Where a step is pushed, if there is room for one.
fn free_slot<H: Host>(env: &Site<H>, tid: u64) -> Result<Option<Slot>, AllocError>
    ensures { IfOk result (λ found. IsFree env.now.nodes.nodes tid found) }
{
    if is_there(env, Slot::Upper, tid)? {
        return Ok(None);
    }
    if is_there(env, Slot::Lower, tid)? {
        return Ok(Some(Slot::Upper));
    }
    Ok(Some(Slot::Lower))
}

/// Where the top step is, if there is one.
fn top_slot<H: Host>(env: &Site<H>, tid: u64) -> Result<Option<Slot>, AllocError>
    ensures { IfOk result (λ found. IsTopSlot env.now.nodes.nodes tid found) }
{
    if is_there(env, Slot::Upper, tid)? {
        return Ok(Some(Slot::Upper));
    }
    if is_there(env, Slot::Lower, tid)? {
        return Ok(Some(Slot::Lower));
    }
    Ok(None)
}

/// The changes that push a step, or none exactly where there is no place for it.
pub fn push_ops<H: Host>(
    env: &Site<H>,
    tid: u64,
    words: &StepWords,
) -> Result<Option<Vec<NodeOp>>, AllocError>
    ensures { IfOk result (λ found. MatchOption found (HasNoPlace env.now.nodes.nodes tid words.now) (λ ops. PushChanges env.now.nodes.nodes tid words.now ops.items)) }
{
    let Some(value) = step_value(env.alloc, words)? else {
        return Ok(None);
    };
    let Some(slot) = free_slot(env, tid)? else {
        return Ok(None);
    };
    let ops = creation(env, slot, tid, value)?;
    Ok(Some(ops))
}

/// The changes that pop the top step, or none exactly where there is no step.
pub fn pop_ops<H: Host>(env: &Site<H>, tid: u64) -> Result<Option<Vec<NodeOp>>, AllocError>
    ensures { IfOk result (λ found. MatchOption found (IsTopSlot env.now.nodes.nodes tid None) (λ ops. PopChanges env.now.nodes.nodes tid ops.items)) }
{
    let Some(slot) = top_slot(env, tid)? else {
        return Ok(None);
    };
    let ops = deletion(env, slot, tid)?;
    Ok(Some(ops))
}

/// Adds the change that takes a slot's node out, if it is there.
fn take_out<H: Host>(
    env: &Site<H>,
    slot: Slot,
    tid: u64,
    ops: &mut Vec<NodeOp>,
) -> Result<(), AllocError>
    ensures { OnOk result (ops.new.items ≡ ops.old.items ++ taking slot tid (value_at env.now.nodes.nodes (slot_path slot tid))) }
{
    if env.slot(slot, tid)?.is_some() {
        let path = slot_path(env.alloc, slot, tid)?;
        ops.push(NodeOp::Delete {
            path,
            version: None,
        })?;
    }
    Ok(())
}

/// Adds the changes that take the steps out, where a transaction succeeds.
fn take_steps_out<H: Host>(
    env: &Site<H>,
    tid: u64,
    status: TxStatus,
    ops: &mut Vec<NodeOp>,
) -> Result<(), AllocError>
    ensures { OnOk result (ops.new.items ≡ ops.old.items ++ taken_out status (taking Upper tid (value_at env.now.nodes.nodes (slot_path Upper tid)) ++ taking Lower tid (value_at env.now.nodes.nodes (slot_path Lower tid)))) }
{
    match status {
        TxStatus::Successful => {
            take_out(env, Slot::Upper, tid, ops)?;
            take_out(env, Slot::Lower, tid, ops)
        }
        TxStatus::Submitted => Ok(()),
        TxStatus::InProgress => Ok(()),
        TxStatus::FailedInProgress => Ok(()),
        TxStatus::Failed => Ok(()),
    }
}

/// The changes that set a status, or none exactly where there is no such transaction.
pub fn status_ops<H: Host>(
    env: &Site<H>,
    tid: u64,
    status: TxStatus,
    cause: Option<Cause>,
) -> Result<Option<Vec<NodeOp>>, AllocError>
    ensures { IfOk result (λ found. MatchOption found (value_at env.now.nodes.nodes (slot_path Status tid) ≡ None) (λ ops. StatusChanges env.now.nodes.nodes tid status cause ops.items)) }
{
    let Some(old) = env.slot(Slot::Status, tid)? else {
        return Ok(None);
    };
    let value = status_value(env.alloc, status, cause, old)?;
    let mut ops = setting(env, Slot::Status, tid, value)?;
    take_steps_out(env, tid, status, &mut ops)?;
    Ok(Some(ops))
}
