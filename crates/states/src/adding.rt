// A state is added to those of the store: of two equal states the better stays.
ghost use Rattle.store.specs.Store.{Storable, Indexed};
ghost use Rattle.states.specs.Order.{Leading};
ghost use Rattle.states.specs.Adding.{AddedOf, IndexedAfter};

use crate::{Added, Full, order};
use store::{Place, index, places};

// Adds x to the count states: it takes the place of an equal one if it is better, and a new place if there is no equal one.
pub fn add_place(store: &mut [i64], count: usize, x: Place) -> Result<Added, Full>
    requires indexed { Indexed store.old count }
    requires storable { Storable x }
    requires leading { Leading store.old count x }
    ensures added_of { AddedOf store.old store.new count x result }
    ensures indexed_after { IndexedAfter store.new count result }
{
    match index::find_equal(store, count, x.state) {
        Some(k) => {
            let old = places::place_at(store, k);
            if order::is_better(store, x, old.state, k) {
                places::put_place(store, k, x);
                Ok(Added::Replaced)
            } else {
                Ok(Added::Kept)
            }
        }
        None => {
            if count < store.len() / 8 {
                index::append_place(store, count, x);
                Ok(Added::Appended)
            } else {
                Err(Full)
            }
        }
    }
}
