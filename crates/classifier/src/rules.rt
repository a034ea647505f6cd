// What single rules say: of a key, of one another, and of what a find names.
ghost use Rattle.std.specs.Prelude.{◌≡◌, true, ◌&&◌, ◌==◌};
ghost use Rattle.std.specs.Option.{option_map};
ghost use Rattle.flow.specs.Masks.{union};
ghost use Rattle.classifier.specs.Rules.{matches, clashing, named, fresh, new_rule};
ghost use Rattle.classifier.specs.Stores.{before, sound_test};

use super::rule::{Find, Match, NewRule, Rule};
use flow::MaskedKey;

impl NewRule {
    // A rule that sends to no port and leads to no table.
    pub fn dropping(id: u32, priority: u16, key: MaskedKey) -> NewRule
        ensures key { result.key ≡ key }
        ensures rest { fresh result ≡ new_rule id priority key.mask key.value 0 0 }
    {
        NewRule {
            id,
            priority,
            key,
            ports: 0,
            next: 0,
        }
    }
}

impl Find {
    // The id of the rule that was found.
    pub fn id(&self) -> Option<u32>
        ensures { result ≡ option_map (λ m. m.id) self.now.rule }
    {
        self.rule.map(|rule| rule.id)
    }
}

impl Rule {
    // The rule that is to stand, with count 0.
    pub(crate) fn fresh(new: NewRule) -> Rule
        ensures is { result ≡ fresh new }
        ensures sound { sound_test result ≡ true }
    {
        Rule {
            id: new.id,
            priority: new.priority,
            mask: *new.key.mask(),
            value: *new.key.value(),
            ports: new.ports,
            next: new.next,
            count: 0,
        }
    }

    // What a find names of the rule.
    pub fn name(&self) -> Match
        ensures { result ≡ named self.now }
    {
        Match {
            id: self.id,
            ports: self.ports,
            next: self.next,
        }
    }

    // Looks at the rule: adds its mask's bits, and says whether it matches the key.
    #[tactic(auto, unfolding(crate::specs::Rules::matches))]
    pub(crate) fn look(&self, key: &[u8; 36], mask: &mut [u8; 36]) -> bool
        ensures matched { result ≡ matches self.now key.now }
        ensures added { mask.new ≡ union mask.old self.now.mask }
    {
        flow::union_into(mask, &self.mask);
        flow::covers(&self.mask, &self.value, key)
    }

    // Whether the rule has the new one's priority and some key is matched by both.
    #[tactic(auto, unfolding(crate::specs::Rules::clashing))]
    pub(crate) fn clashes(&self, new: &Rule) -> bool
        ensures { result ≡ (self.now.priority == new.now.priority && clashing self.now new.now) }
    {
        self.priority == new.priority
            && flow::overlaps(&self.mask, &self.value, &new.mask, &new.value)
    }

    // Whether the rule is looked at before the other.
    pub(crate) fn goes_before(&self, other: &Rule) -> bool
        ensures { result ≡ before self.now other.now }
    {
        self.priority > other.priority || (self.priority == other.priority && self.id < other.id)
    }
}
