// Maps from paths.
ghost use Rattle.std.specs.Prelude.{◌≡◌, ◌≤◌, [], ◌∷◌, ◌++◌, length, IfOk, OnOk, OnErr, MatchOption};
ghost use Rattle.std.specs.FinMap as map;
ghost use Rattle.std.specs.Option.{option_copied};
ghost use Rattle.row_keys.specs.Forms.{IsPath};
ghost use Rattle.node_store.specs.PathsTo.{with_entry, overlaid};
ghost use Rattle.node_store.specs.Children.{is_single_name, is_named_behind, children_of};

use row_keys::Path;
use std::alloc::{AllocError, Global};
use std::collections::BTreeMap;
use std::marker::Model;

/// A map from paths. Contracts see it as a finite map from their bytes.
#[derive(Debug, Drop)]
pub struct PathMap<V> {
    entries: BTreeMap<Path, V>,
}

impl<V> Model for PathMap<V> {
    ghost use Rattle.std.specs.Ordering.{nat_cmp};
    ghost use Rattle.std.specs.Cmp.Lexicographic.{slice_cmp};
    ghost use Rattle.std.specs.FinMap as map;
    ghost use Rattle.std.specs.BTreeMap as tree;
    ghost use Rattle.std.specs.Prelude.{All};
    ghost use Rattle.row_keys.specs.Forms.{IsPath};
    ghost use Rattle.std.specs.Coded.{coded_ℕ, coded_list};

    ghost Value = { map.FinMap (slice_cmp nat_cmp) V };

    ghost coded = { map.code (coded_list coded_ℕ) V.code };

    ghost view = { λ m. map.from_entries m.entries.entries };

    ghost invariant = { λ m. All IsPath (tree.keys m.entries) };
}

impl<V: Drop> PathMap<V> {
    /// No entries. Takes no memory.
    pub fn new(alloc: Global) -> Self
        ensures { result ≡ map.empty }
    {
        PathMap {
            entries: BTreeMap::new(alloc),
        }
    }

    /// What the path has, if anything.
    pub fn get(&self, path: &Path) -> Option<&V>
        ensures { option_copied result ≡ map.get self.now path.now }
    {
        self.entries.get(path)
    }

    /// Gives the path this value. At want of memory the map is as it was.
    pub fn insert(&mut self, path: Path, value: V) -> Result<(), AllocError>
        requires { IsPath path }
        ensures ok { OnOk result (self.new ≡ map.insert self.old path value) }
        ensures err { OnErr result (self.new ≡ self.old) }
    {
        self.entries.insert(path, value)?;
        Ok(())
    }

    /// Takes the path out, if it is there.
    pub fn remove(&mut self, path: &Path)
        ensures { self.new ≡ map.remove self.old path.now }
    {
        let _ = self.entries.remove(path);
    }

    /// Gives the path this value, or takes it out where there is none.
    fn change(&mut self, path: Path, value: Option<V>) -> Result<(), AllocError>
        requires { IsPath path }
        ensures { OnOk result (self.new ≡ with_entry self.old path value) }
    {
        match value {
            Some(value) => self.insert(path, value),
            None => {
                self.remove(&path);
                Ok(())
            }
        }
    }

    /// Puts changes over the entries: a path with a value in `changes` gets it, and one with none goes. At want of
    /// memory some may be made.
    pub fn merge(&mut self, changes: PathMap<Option<V>>) -> Result<(), AllocError>
        ensures { OnOk result (self.new ≡ overlaid self.old changes) }
    {
        for (path, change) in changes.entries {
            self.change(path, change)?;
        }
        Ok(())
    }

    /// The paths, in byte order.
    pub fn paths(&self, alloc: Global) -> Result<Vec<Path>, AllocError>
        ensures { IfOk result (λ paths. paths.items ≡ map.keys self.now) }
    {
        let mut paths = Vec::new(alloc);
        for path in self.entries.keys() {
            paths.push(path.copy(alloc)?)?;
        }
        Ok(paths)
    }

    /// The paths that add one `/` and one further name to this one, in byte order.
    pub fn children(&self, alloc: Global, parent: &Path) -> Result<Vec<Path>, AllocError>
        ensures { IfOk result (λ paths. paths.items ≡ children_of parent.now (map.keys self.now)) }
    {
        let entries = &self.entries;
        let mut children = Vec::new(alloc);
        let Some((first, past)) = below(alloc, parent)? else {
            return Ok(children);
        };
        for (path, _) in entries.range(&first..&past) {
            if is_named_behind(first.as_bytes(), path.as_bytes()) {
                children.push(path.copy(alloc)?)?;
            }
        }
        Ok(children)
    }
}

/// Whether these are some bytes without `/`.
fn is_single_name(name: &[u8]) -> bool
    ensures { result ≡ is_single_name name.now }
{
    !name.is_empty() && !name.contains(&b'/')
}

/// Whether the path is these bytes and a name.
fn is_named_behind(front: &[u8], path: &[u8]) -> bool
    ensures { result ≡ is_named_behind front.now path.now }
{
    path.starts_with(front) && is_single_name(&path[front.len()..])
}

/// The path with a byte more, unless it is too long for that.
fn with_byte(alloc: Global, path: &Path, byte: u8) -> Result<Option<Path>, AllocError>
    ensures { IfOk result (λ found. MatchOption found (200 ≤ length path.now) (λ longer. longer ≡ path.now ++ byte ∷ [])) }
{
    let mut bytes = path.as_bytes().to_vec(alloc)?;
    bytes.push(byte)?;
    Path::new(alloc, &bytes)
}

/// The first path that may be below this one, and the first behind all those; none where the path is too long to have
/// one below it.
fn below(alloc: Global, path: &Path) -> Result<Option<(Path, Path)>, AllocError>
    ensures { IfOk result (λ found. MatchOption found (200 ≤ length path.now) (λ ends. (ends.0 ≡ path.now ++ 47 ∷ []) × (ends.1 ≡ path.now ++ 48 ∷ []))) }
{
    let Some(first) = with_byte(alloc, path, b'/')? else {
        return Ok(None);
    };
    let Some(past) = with_byte(alloc, path, b'/' + 1)? else {
        return Ok(None);
    };
    Ok(Some((first, past)))
}
