// Numbers, phases and bounds as words.
ghost use Rattle.std.specs.Prelude.{◌≡◌, ◌++◌, ◌∷◌, ◌<◌, ◌^◌, ℕ, Some, IfOk, OnOk, MatchOption, codes};
ghost use Rattle.std.specs.Fmt.{decimal};
ghost use Rattle.std.specs.Option.{option_copied};
ghost use Rattle.store_layout.specs.Words.{bound_word};
ghost use Rattle.store_layout.specs.Tables.{phase_word, state_word};
ghost use Rattle.store_layout.specs.declared.tables.Phase.{Phase};
ghost use Rattle.store_layout.specs.declared.tables.TableState.{TableState};
ghost use Rattle.table_names.specs.Words.{IsNoNumber, IsBound, IsNoBound};

use crate::texts::{read_text, word_of};
use row_keys::{Octets, Row};
use std::alloc::{AllocError, Global};
use std::str;
use store_layout::{Phase, TableState};

const MAX_ROW: usize = 300;

const NO_BOUND: &[u8] = b"-";

fn parsed(text: &[u8]) -> Option<u64>
    ensures { (number : ℕ) → number < 2 ^ 64 → text.now ≡ decimal number → result ≡ Some number }
{
    let text = str::from_utf8(text).ok()?;
    text.parse().ok()
}

/// The number that a word is in decimal, without leading zeros, or none. Takes memory for its spelling.
pub fn read_number(alloc: Global, word: &[u8]) -> Result<Option<u64>, AllocError>
    ensures { IfOk result (λ found. MatchOption found (IsNoNumber word.now) (λ number. word.now ≡ decimal number)) }
{
    let Some(number) = parsed(word) else {
        return Ok(None);
    };
    let spelled = number.to_string(alloc)?;
    if spelled.as_bytes() == word {
        Ok(Some(number))
    } else {
        Ok(None)
    }
}

/// The state that a word is, or none.
pub fn read_state(word: &[u8]) -> Option<TableState>
    ensures { MatchOption result ((state : TableState) → word.now ≡ state_word state → ⊥) (λ state. word.now ≡ state_word state) }
{
    match word {
        b"NEW" => Some(TableState::New),
        b"ONLINE" => Some(TableState::Online),
        b"DELETING" => Some(TableState::Deleting),
        _ => None,
    }
}

/// The phase that a word is, or none.
pub fn read_phase(word: &[u8]) -> Option<Phase>
    ensures { MatchOption result ((phase : Phase) → word.now ≡ phase_word phase → ⊥) (λ phase. word.now ≡ phase_word phase) }
{
    match word {
        b"chop" => Some(Phase::Chop),
        b"offline" => Some(Phase::Offline),
        _ => None,
    }
}

/// The bound that a word is, or none where it is no bound's. Takes memory for it.
pub fn read_bound(alloc: Global, word: &[u8]) -> Result<Option<Option<Row>>, AllocError>
    ensures { IfOk result (λ found. MatchOption found (IsNoBound word.now) (IsBound word.now)) }
{
    if word == NO_BOUND {
        return Ok(Some(None));
    }
    let Some(text) = read_text(alloc, word)? else {
        return Ok(None);
    };
    if text.len() > MAX_ROW {
        return Ok(None);
    }
    let row = Row::from_octets(Octets::from_vec(text));
    Ok(Some(Some(row)))
}

/// Puts a space and a word.
pub fn put_word(out: &mut Vec<u8>, word: &[u8]) -> Result<(), AllocError>
    ensures { OnOk result (out.new.items ≡ out.old.items ++ 32 ∷ word.now) }
{
    out.push(b' ')?;
    out.extend_from_slice(word)?;
    Ok(())
}

/// Puts a space and a number in decimal.
pub fn put_number(alloc: Global, out: &mut Vec<u8>, number: u64) -> Result<(), AllocError>
    ensures { OnOk result (out.new.items ≡ out.old.items ++ 32 ∷ decimal number) }
{
    let digits = number.to_string(alloc)?;
    put_word(out, digits.as_bytes())
}

/// Puts a space and a bound.
pub fn put_bound(alloc: Global, out: &mut Vec<u8>, bound: Option<&Row>) -> Result<(), AllocError>
    ensures { OnOk result (out.new.items ≡ out.old.items ++ 32 ∷ bound_word (option_copied bound.entry)) }
{
    match bound {
        None => put_word(out, NO_BOUND),
        Some(row) => {
            let word = word_of(alloc, row.as_bytes())?;
            put_word(out, &word)
        }
    }
}

/// The word of a state.
pub fn state_word(state: TableState) -> &'static [u8]
    ensures { result.now ≡ state_word state }
{
    match state {
        TableState::New => b"NEW",
        TableState::Online => b"ONLINE",
        TableState::Deleting => b"DELETING",
    }
}

/// The word of a phase.
pub fn phase_word(phase: Phase) -> &'static [u8]
    ensures { result.now ≡ phase_word phase }
{
    match phase {
        Phase::Chop => b"chop",
        Phase::Offline => b"offline",
    }
}
