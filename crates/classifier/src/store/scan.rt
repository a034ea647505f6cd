// Searches through the rules of one table, in the order of looking.
ghost use Rattle.std.specs.Prelude.{◌≡◌, ◌&&◌, ◌==◌, position};
ghost use Rattle.std.specs.List.{find, list_any};
ghost use Rattle.std.specs.Option.{option_map};
ghost use Rattle.classifier.specs.Rules.{clashing};
ghost use Rattle.classifier.specs.Stores.{before};

use crate::rule::Rule;

// The place of the rule of this id.
pub fn place_of(rules: &[Rule], id: u32) -> Option<usize>
    ensures { result ≡ position (λ r. r.id == id) rules.now }
{
    rules.iter().position(|rule| rule.id == id)
}

// Whether a rule of this id stands.
pub fn is_standing(rules: &[Rule], id: u32) -> bool
    ensures { result ≡ list_any (λ r. r.id == id) rules.now }
{
    rules.iter().any(|rule| rule.id == id)
}

// The first rule that has the new one's priority and overlaps it.
pub fn first_clash<'a>(rules: &'a [Rule], new: &Rule) -> Option<&'a Rule>
    ensures { option_map (λ r. r.now) result ≡ find (λ r. r.priority == new.now.priority && clashing r new.now) rules.now }
{
    rules.iter().find(|rule| rule.clashes(new))
}

// The place of the first rule that the new one goes before.
pub fn first_behind(rules: &[Rule], new: &Rule) -> Option<usize>
    ensures { result ≡ position (before new.now) rules.now }
{
    rules.iter().position(|rule| new.goes_before(rule))
}
