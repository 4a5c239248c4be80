// The mark of a table, as words.
ghost use Rattle.std.specs.Prelude.{◌≡◌, ◌++◌, ◌∷◌, ℕ, List, IfOk, OnOk, MatchOption, codes};
ghost use Rattle.std.specs.List.{All, flat_map};
ghost use Rattle.metadata_schema.specs.Paths.{IsFilePath};
ghost use Rattle.store_layout.specs.Tables.{mark_words};
ghost use Rattle.table_names.specs.Marks.{IsMarkOf, IsNoMark};

use crate::words::{
    phase_word, put_bound, put_number, put_word, read_bound, read_number, read_phase,
};
use metadata_schema::is_file_path;
use row_keys::{Octets, Path, Paths};
use std::alloc::{AllocError, Global};
use store_layout::Mark;

const FREE: &[u8] = b"-";

const MERGE: &[u8] = b"merge";

const IMPORT: &[u8] = b"import";

/// The mark that these words are behind `merge`, or none.
fn read_merge(alloc: Global, words: &[Octets]) -> Result<Option<Mark>, AllocError>
    ensures { IfOk result (λ found. MatchOption found (IsNoMark (codes "merge" ∷ words.now)) (IsMarkOf (codes "merge" ∷ words.now))) }
{
    let [tid, phase, from, to] = words else {
        return Ok(None);
    };
    let Some(tid) = read_number(alloc, tid.as_bytes())? else {
        return Ok(None);
    };
    let Some(phase) = read_phase(phase.as_bytes()) else {
        return Ok(None);
    };
    let Some(from) = read_bound(alloc, from.as_bytes())? else {
        return Ok(None);
    };
    let Some(to) = read_bound(alloc, to.as_bytes())? else {
        return Ok(None);
    };
    Ok(Some(Mark::Merge {
        tid,
        phase,
        from,
        to,
    }))
}

/// The path of a data file that a word is, or none.
fn read_path(alloc: Global, word: &[u8]) -> Result<Option<Path>, AllocError>
    ensures { IfOk result (λ found. MatchOption found (IsFilePath word.now → ⊥) (λ path. (path ≡ word.now) × IsFilePath word.now)) }
{
    if !is_file_path(word) {
        return Ok(None);
    }
    match Path::new(alloc, word)? {
        Some(path) => Ok(Some(path)),
        None => unreachable!(),
    }
}

/// The paths of data files that these words are, or none where one isn't.
fn read_paths(alloc: Global, words: &[Octets]) -> Result<Option<Vec<Path>>, AllocError>
    ensures { IfOk result (λ found. MatchOption found (All IsFilePath words.now → ⊥) (λ paths. (paths.items ≡ words.now) × All IsFilePath words.now)) }
{
    let mut paths = Vec::new(alloc);
    for word in words {
        let Some(path) = read_path(alloc, word.as_bytes())? else {
            return Ok(None);
        };
        paths.push(path)?;
    }
    Ok(Some(paths))
}

/// The mark that these words are behind `import`, or none.
fn read_import(alloc: Global, words: &[Octets]) -> Result<Option<Mark>, AllocError>
    ensures { IfOk result (λ found. MatchOption found (IsNoMark (codes "import" ∷ words.now)) (IsMarkOf (codes "import" ∷ words.now))) }
{
    let Some((tid, paths)) = words.split_first() else {
        return Ok(None);
    };
    if paths.is_empty() {
        return Ok(None);
    }
    let Some(tid) = read_number(alloc, tid.as_bytes())? else {
        return Ok(None);
    };
    let Some(paths) = read_paths(alloc, paths)? else {
        return Ok(None);
    };
    Ok(Some(Mark::Import {
        tid,
        paths: Paths::from_vec(paths),
    }))
}

/// The mark that these words are, or none where they are no mark's. Takes memory for it.
pub fn read_mark(alloc: Global, words: &[Octets]) -> Result<Option<Mark>, AllocError>
    ensures { IfOk result (λ found. MatchOption found (IsNoMark words.now) (IsMarkOf words.now)) }
{
    let Some((first, others)) = words.split_first() else {
        return Ok(None);
    };
    match first.as_bytes() {
        b"-" => Ok(others.is_empty().then_some(Mark::Free)),
        b"merge" => read_merge(alloc, others),
        b"import" => read_import(alloc, others),
        _ => Ok(None),
    }
}

fn put_paths(out: &mut Vec<u8>, paths: &[Path]) -> Result<(), AllocError>
    ensures { OnOk result (out.new.items ≡ out.old.items ++ flat_map (λ word. 32 ∷ word) paths.now) }
{
    for path in paths {
        put_word(out, path.as_bytes())?;
    }
    Ok(())
}

/// Puts a space and each word of a mark.
pub fn put_mark(alloc: Global, out: &mut Vec<u8>, mark: &Mark) -> Result<(), AllocError>
    ensures { OnOk result (out.new.items ≡ out.old.items ++ flat_map (λ word. 32 ∷ word) (mark_words mark.now)) }
{
    match mark {
        Mark::Free => put_word(out, FREE),
        Mark::Merge {
            tid,
            phase,
            from,
            to,
        } => {
            put_word(out, MERGE)?;
            put_number(alloc, out, *tid)?;
            put_word(out, phase_word(*phase))?;
            put_bound(alloc, out, from.as_ref())?;
            put_bound(alloc, out, to.as_ref())
        }
        Mark::Import { tid, paths } => {
            put_word(out, IMPORT)?;
            put_number(alloc, out, *tid)?;
            put_paths(out, paths.as_slice())
        }
    }
}
