// A small store, to see the definitions at work. The law is the contract of a call that does nothing.
ghost use Rattle.store_meaning.specs.Stands.{StandsAs};
ghost use Rattle.store_meaning.specs.Kept.{IsKeptAs};
ghost use Rattle.store_meaning.specs.Example.{ground_of_example, reading, catalog, state};

use metadata_schema::new_tablets_are_well_formed;

/// A store with one table, one split and one insert that is in a log alone stands for that table with that pair,
/// and is kept.
pub fn a_small_store_stands_for_its_table()
    ensures stands { StandsAs reading catalog ground_of_example state }
    ensures kept { IsKeptAs reading catalog ground_of_example state }
{
    new_tablets_are_well_formed();
}
