// A classifier made of another, and structs that hold tables of it.
ghost use Rattle.std.specs.Prelude.{◌≡◌, IfOk};
ghost use Rattle.datapath.specs.Walk.{no_rules, walk, ports_of};

use classifier::{Classifier, ClassifierFault, Find, NewRule};
use datapath::Tables;
use datapath::level::Level;
use std::alloc::{AllocError, Global};

// A classifier that hands each call on to another.
#[derive(Drop)]
pub struct Passed<C: Classifier> {
    one: C,
}

impl<C: Classifier> Classifier for Passed<C> {
    type Kind = C::Kind;

    ghost rules = { λ s. C.Classifier.rules s.one };

    ghost gives = { λ s k m. C.Classifier.gives s.one k m };

    fn new(heap: Global, kind: C::Kind) -> Result<Self, AllocError> {
        Ok(Passed {
            one: C::new(heap, kind)?,
        })
    }

    fn add(&mut self, new: &NewRule) -> Result<(), ClassifierFault> {
        self.one.add(new)
    }

    fn remove(&mut self, id: u32) -> Result<(), ClassifierFault> {
        self.one.remove(id)
    }

    fn find(&self, key: &[u8; 36]) -> Find {
        self.one.find(key)
    }

    fn credit(&mut self, id: u32, n: u64) {
        self.one.credit(id, n);
    }

    fn count(&self, id: u32) -> Result<u64, ClassifierFault> {
        self.one.count(id)
    }

    ghost lawful = { λ s. C.Classifier.lawful s.one };
}

// Tables of such classifiers, held whole.
#[derive(Drop)]
pub struct Held<C: Classifier> {
    pub tables: Tables<Passed<C>>,
}

// The same, if there are any.
#[derive(Drop)]
pub struct Perhaps<C: Classifier> {
    pub tables: Option<Tables<Passed<C>>>,
}

// The same, lent.
#[derive(Drop)]
pub struct Lent<'a, C: Classifier> {
    pub tables: &'a Tables<Passed<C>>,
}

impl<C: Classifier + Drop> Held<C> {
    // Tables without a rule.
    pub fn new(heap: Global, kind: C::Kind) -> Result<Held<C>, AllocError>
        ensures { IfOk result (λ h. h.tables.rules ≡ no_rules) }
    {
        Ok(Held {
            tables: Tables::new(heap, kind)?,
        })
    }

    // Where a key goes.
    pub fn ports(&self, key: &[u8; 36]) -> u64
        ensures { result ≡ ports_of (walk self.now.tables.rules key.now) }
    {
        self.tables.peek(key).ports
    }
}
