// A classifier that visits its tuples by falling rank, and searches each by a hash.
ghost use Rattle.std.specs.Prelude.{◌≡◌, ℕ, List};
ghost use Rattle.classifier.specs.Kept.{standing_rules};
ghost use Rattle.tuple_space.specs.Tuples.{worn, rank_of, listed, rank_in};

use super::indexed::IndexedStore;
use super::masks::Masks;

mod methods;

#[derive(Drop)]
pub struct TupleSpace {
    rules: IndexedStore,
    masks: Masks,
    // the masks are those of the rules
    ghost covered: { (m : List ℕ) → listed masks.arrived.items m ≡ worn (standing_rules rules.store) m },
    // each with its rank
    ghost ranks: { (m : List ℕ) → rank_in masks.arrived.items m ≡ rank_of (standing_rules rules.store) m },
}
