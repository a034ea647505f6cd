// The visit of the tuples.
ghost use Rattle.std.specs.Prelude.{◌≡◌, None};
ghost use Rattle.std.specs.Option.{option_map};
ghost use Rattle.flow.specs.Masks.{union, empty_mask};
ghost use Rattle.classifier.specs.Kept.{standing_rules};
ghost use Rattle.tuple_space.specs.Visits.{above, better, searched, outcome, visited, joined};

use crate::indexed::IndexedStore;
use crate::ranked_mask::RankedMask;
use classifier::{Find, Found, Match};

// Whether a tuple of this rank may hold a rule of higher priority than was found.
fn may_beat(rank: u16, top: &Option<Found>) -> bool
    ensures { result ≡ above rank (option_map (λ f. f.priority) top.now) }
{
    top.as_ref().is_none_or(|found| rank > found.priority)
}

// The one of higher priority.
fn better(top: Option<Found>, next: Option<Found>) -> Option<Found>
    ensures { result ≡ better (λ f. f.priority) top next }
{
    // with a guard in place of the inner `if` a find over 16 tuples takes 233 ns and not 225
    match (top, next) {
        (Some(old), Some(new)) => {
            if new.priority > old.priority {
                Some(new)
            } else {
                Some(old)
            }
        }
        (Some(old), None) => Some(old),
        (None, new) => new,
    }
}

// Visits a tuple: adds the bits of its mask, and gives the better of what was found so far and what the search of
// the tuple finds.
fn visit_tuple(
    store: &IndexedStore,
    tuple: &RankedMask,
    key: &[u8; 36],
    top: Option<Found>,
    mask: &mut [u8; 36],
) -> Option<Found>
    ensures found { result ≡ better (λ f. f.priority) top (searched (standing_rules store.now.store) key.now tuple.now.mask) }
    ensures added { mask.new ≡ union mask.old tuple.now.mask }
{
    flow::union_into(mask, &tuple.mask);
    better(top, store.search(&tuple.mask, key))
}

// Visits the tuples until the next rank is not above the priority found.
pub fn visit(store: &IndexedStore, tuples: &[RankedMask], key: &[u8; 36]) -> Find
    ensures rule { result.rule ≡ option_map (λ f. f.rule) (outcome (λ f. f.priority) (searched (standing_rules store.now.store) key.now) None tuples.now) }
    ensures mask { result.mask ≡ union empty_mask (joined (visited (standing_rules store.now.store) key.now None tuples.now)) }
{
    let mut mask = flow::empty_mask();
    let mut top: Option<Found> = None;
    for tuple in tuples {
        if !may_beat(tuple.rank, &top) {
            return Find {
                rule: top.map(|found| found.rule),
                mask,
            };
        }
        top = visit_tuple(store, tuple, key, top, &mut mask);
    }
    Find {
        rule: top.map(|found| found.rule),
        mask,
    }
}
