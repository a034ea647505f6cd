// What a caller learns of the classifiers' rules by calls of the tables, and of the tables as a level, one after the other.
ghost use Rattle.std.specs.Prelude.{◌≡◌, ◌<◌, map};
ghost use Rattle.std.specs.List.{AllByRecursion};
ghost use Rattle.datapath.specs.Walk.{walk, ports_of, credit_along, due};

use arrayvec::ArrayVec;
use classifier::Classifier;
use datapath::level::Level;
use datapath::{Crossed, Mark, Tables, Walk};

// Three more for each rule crossed, as tables; then where the key goes, as a level.
pub fn pass_and_peek<C: Classifier>(tables: &mut Tables<C>, key: &[u8; 36]) -> u64
    ensures { result ≡ ports_of (walk (due (map C.Classifier.rules tables.old.classifiers) key.now 3) key.now) }
{
    let _ = tables.pass(key, 3);
    tables.peek(key).ports
}

// The same the other way: as a level, and then as tables.
pub fn credit_and_walk<C: Classifier>(tables: &mut Tables<C>, key: &[u8; 36]) -> u64
    ensures { result ≡ ports_of (walk (due (map C.Classifier.rules tables.old.classifiers) key.now 3) key.now) }
{
    tables.credit(key, 3);
    tables.walk(key).ports
}

// An eviction leaves the classifiers as they are.
pub fn evict_and_walk<C: Classifier>(tables: &mut Tables<C>, key: &[u8; 36]) -> u64
    ensures { result ≡ ports_of (walk (map C.Classifier.rules tables.old.classifiers) key.now) }
{
    let _ = tables.evict();
    tables.walk(key).ports
}

// Two more for each rule crossed, by two calls.
pub fn decide_and_credit<C: Classifier>(tables: &mut Tables<C>, key: &[u8; 36])
    ensures { map C.Classifier.rules tables.new.classifiers ≡ due (due (map C.Classifier.rules tables.old.classifiers) key.now 1) key.now 1 }
{
    let _ = tables.decide(key);
    tables.credit(key, 1);
}

// n more for each of these marks, of whatever walk.
pub fn credit_marks<C: Classifier>(tables: &mut Tables<C>, marks: &ArrayVec<Mark, 4>, n: u64)
    requires { AllByRecursion (λ m. m.table < 4) marks.now.items }
    ensures { map C.Classifier.rules tables.new.classifiers ≡ credit_along (map C.Classifier.rules tables.old.classifiers) marks.now.items n }
{
    let mut crossed = Crossed::new();
    for mark in marks.as_slice() {
        crossed.push(*mark);
    }
    let walk = Walk {
        crossed,
        ports: 0,
        mask: [0; 36],
    };
    tables.credit_along(&walk, n);
}
