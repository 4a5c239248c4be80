// The words of the command line.
ghost use Rattle.std.specs.Prelude.{◌≡◌, IfOk, IsErrOf, MatchBool, MatchOption, codes};
ghost use Rattle.script_words.specs.CommandLine.{IsDirectory, IsStoreForm, IsUsage};
ghost use Rattle.script_words.specs.declared.command_line.WordsStop.TheVariants.{NoMemory};

use row_keys::{Octets, Words};
use std::alloc::{AllocError, Global};
use std::str;

/// `[--init] DIR`, in any order: the store in the directory DIR, made anew with `--init`.
#[derive(Debug, Drop)]
pub struct StoreForm {
    pub init: bool,
    /// UTF-8, not empty, and not beginning with `-`.
    pub dir: Octets,
}

/// Why there is no form.
#[derive(Debug, Drop)]
pub enum WordsStop {
    /// The words are of no form.
    Usage,
    NoMemory,
}

impl From<AllocError> for WordsStop {
    ghost from_gives = { λ _ stop. stop ≡ NoMemory };

    fn from(_: AllocError) -> Self {
        WordsStop::NoMemory
    }
}

/// Reads the words: `--init` at most once and exactly one DIR, in any order. `Usage` comes exactly where they are
/// of no such form, and beside it `NoMemory` alone.
pub fn read_words(alloc: Global, words: &Words) -> Result<StoreForm, WordsStop>
    ensures form { IfOk result (IsStoreForm words.now) }
    ensures usage { IsErrOf result WordsStop.Usage → IsUsage words.now }
    ensures refused { IsUsage words.now → IsErrOf result WordsStop.Usage }
{
    let Some((init, dir)) = chosen(words.as_slice()) else {
        return Err(WordsStop::Usage);
    };
    let dir = Octets::new(alloc, dir.as_bytes())?;
    Ok(StoreForm { init, dir })
}

/// Whether the store is made anew, and its directory, or none where the words are of no form.
fn chosen(words: &[Octets]) -> Option<(bool, &Octets)>
    ensures { MatchOption result (IsUsage words.now) (λ found. IsStoreForm words.now (record { init = found.0; dir = found.1.now })) }
{
    match words {
        [dir] if is_directory(dir.as_bytes()) => Some((false, dir)),
        [init, dir] if is_init(init.as_bytes()) && is_directory(dir.as_bytes()) => Some((
            true, dir,
        )),
        [dir, init] if is_init(init.as_bytes()) && is_directory(dir.as_bytes()) => Some((
            true, dir,
        )),
        _ => None,
    }
}

fn is_init(word: &[u8]) -> bool
    ensures { MatchBool result (word.now ≡ codes "--init") (word.now ≡ codes "--init" → ⊥) }
{
    word == b"--init".as_slice()
}

fn is_directory(word: &[u8]) -> bool
    ensures { MatchBool result (IsDirectory word.now) (IsDirectory word.now → ⊥) }
{
    !word.is_empty() && word[0] != b'-' && str::from_utf8(word).is_ok()
}
