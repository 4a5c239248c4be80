// A change of the small store, to see a guard met. The law is the contract of a call that does nothing.
ghost use Rattle.std.specs.Prelude.{◌≡◌, ◌∷◌, [], Ok, codes};
ghost use Rattle.plain_model.specs.declared.operation.Op.TheVariants.{Remove};
ghost use Rattle.plain_model.specs.Apply.{apply};
ghost use Rattle.store_meaning.specs.Content.{cells_of_mutation};
ghost use Rattle.store_meaning.specs.Writes.{appended};
ghost use Rattle.store_meaning.specs.Kept.{IsKeptAs};
ghost use Rattle.store_meaning.specs.Example.{ground_of_example, reading, catalog, log, low, high, key, state};
ghost use Rattle.kept_meaning.specs.Puts.{state_with, PutsPairs};
ghost use Rattle.kept_meaning.specs.Example.{removal};

use store_meaning::a_small_store_stands_for_its_table;

/// The one pair of the small store may be removed: what is asked of cells that are put is met, the store is kept then, and stands
/// for what the plain map makes of the removal.
pub fn a_pair_of_the_small_store_is_removed()
    ensures puts { PutsPairs ground_of_example reading catalog log removal (high ∷ low ∷ []) }
    ensures kept { IsKeptAs reading catalog (appended ground_of_example log removal) (state_with (codes "1") (cells_of_mutation removal) state) }
    ensures removes { apply (Remove (codes "1") key) state ≡ Ok (state_with (codes "1") (cells_of_mutation removal) state) }
{
    a_small_store_stands_for_its_table();
}
