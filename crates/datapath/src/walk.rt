// The walk over the tables.
ghost use Rattle.std.specs.Prelude.{◌≡◌, ◌<◌, map};
ghost use Rattle.std.specs.List.{AllByRecursion};
ghost use Rattle.datapath.specs.Crossed.{marks_of};
ghost use Rattle.datapath.specs.Given.{WalkGives};
ghost use Rattle.datapath.specs.Walk.{walk, ports_of, Tells, credit_along, due};

use super::crossed::Crossed;
use super::four::Four;
use super::level::Mark;
use classifier::Classifier;
use flow::{empty_mask, union_into};

// The rules that a key crosses, in order; their ports; and the union of the finds' masks.
#[derive(Clone, Copy)]
pub struct Walk {
    pub crossed: Crossed,
    pub ports: u64,
    pub mask: [u8; 36],
}

impl<C: Classifier> Four<C> {
    // The walk of a key, from table 0 on. Changes nothing.
    pub fn walk(&self, key: &[u8; 36]) -> Walk
        ensures crossed { marks_of result.crossed ≡ walk (map C.Classifier.rules self.now.classifiers.items) key.now }
        ensures ports { result.ports ≡ ports_of (walk (map C.Classifier.rules self.now.classifiers.items) key.now) }
        ensures mask { Tells (map C.Classifier.rules self.now.classifiers.items) key.now result.mask }
        ensures given { WalkGives C.Classifier.gives C.Classifier.rules self.now.classifiers.items key.now result.mask }
        ensures places { AllByRecursion (λ m. m.table < 4) (marks_of result.crossed) }
    {
        let mut table = 0usize;
        let mut walk = Walk {
            crossed: Crossed::new(),
            ports: 0,
            mask: empty_mask(),
        };
        for _ in 0..4usize {
            let find = self.classifiers[table].find(key);
            union_into(&mut walk.mask, &find.mask);
            let Some(rule) = find.rule else {
                return walk;
            };
            walk.crossed.push(Mark {
                table: table as u8,
                id: rule.id,
                ports: rule.ports,
                next: rule.next,
            });
            walk.ports |= rule.ports;
            if rule.next == 0 {
                return walk;
            }
            table = usize::from(rule.next);
        }
        walk
    }

    // n more for each of the crossed rules.
    pub fn credit_along(&mut self, walk: &Walk, n: u64)
        requires { AllByRecursion (λ m. m.table < 4) (marks_of walk.now.crossed) }
        ensures { map C.Classifier.rules self.new.classifiers.items ≡ credit_along (map C.Classifier.rules self.old.classifiers.items) (marks_of walk.now.crossed) n }
    {
        for mark in walk.crossed.as_slice() {
            self.classifiers[usize::from(mark.table)].credit(mark.id, n);
        }
    }

    // The walk of a key, with n more for each rule crossed.
    pub fn pass(&mut self, key: &[u8; 36], n: u64) -> Walk
        ensures ports { result.ports ≡ ports_of (walk (map C.Classifier.rules self.old.classifiers.items) key.now) }
        ensures mask { Tells (map C.Classifier.rules self.old.classifiers.items) key.now result.mask }
        ensures given { WalkGives C.Classifier.gives C.Classifier.rules self.old.classifiers.items key.now result.mask }
        ensures counted { map C.Classifier.rules self.new.classifiers.items ≡ due (map C.Classifier.rules self.old.classifiers.items) key.now n }
    {
        let walk = self.walk(key);
        self.credit_along(&walk, n);
        walk
    }
}
