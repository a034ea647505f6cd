// Passes over all rules, after a change.
ghost use Rattle.std.specs.Prelude.{◌≡◌, ◌≤◌, length, if◌then◌else◌, Some};
ghost use Rattle.std.specs.Str.{bytes_eq};
ghost use Rattle.tuple_space.specs.Changes.{rank_left};
ghost use Rattle.tuple_space.specs.Indexes.{IndexedRules};
ghost use Rattle.tuple_space.specs.Visits.{topmost};

use classifier::Rule;
use search::{ByteSum, Index};

// The higher of the priority so far and that of the rule, if it has the mask.
fn raised(top: Option<u16>, rule: &Rule, mask: &[u8; 36]) -> Option<u16>
    ensures { result ≡ (if bytes_eq rule.now.mask mask.now then topmost top (Some rule.now.priority) else top) }
{
    if rule.mask != *mask {
        return top;
    }
    match top {
        Some(old) => Some(old.max(rule.priority)),
        None => Some(rule.priority),
    }
}

// The highest priority of the rules that have the mask, if there are such.
pub fn rank_left(rules: &[Rule], mask: &[u8; 36]) -> Option<u16>
    ensures { result ≡ rank_left rules.now mask.now }
{
    let mut top: Option<u16> = None;
    for rule in rules {
        top = raised(top, rule, mask);
    }
    top
}

// The index of the rules.
pub fn index_of(rules: &[Rule]) -> Index<ByteSum>
    requires { length rules.now ≤ 64 }
    ensures { IndexedRules rules.now result.buckets }
{
    let mut index = Index::new(ByteSum);
    for (i, rule) in rules.iter().enumerate() {
        index.put(i, &rule.mask, &rule.value);
    }
    index
}
