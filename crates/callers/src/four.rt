// What a caller learns of tables whose facts are their own: that their rules are their classifiers' holds of every value, so that no
// call is needed for it, also where the tables lie in a switch.
ghost use Rattle.std.specs.Prelude.{◌≡◌, map, IfOk, None, Some, MatchResult};
ghost use Rattle.packet.specs.Frames.{refusal, key_of};
ghost use Rattle.datapath.specs.Walk.{walk, ports_of, due};
ghost use Rattle.switch.specs.Faults.{refusal_of};
ghost use Rattle.switch.specs.Totals.{after_frame};

use super::tables::Passed;
use classifier::Classifier;
use datapath::{Four, Level};
use switch::{Forwarded, Switch, SwitchFault};

// Decides a frame by a switch over four classifiers: each rule crossed has one more.
pub fn frame_of_four<C: Classifier>(
    switch: &mut Switch<Four<C>>,
    in_port: u16,
    frame: &[u8],
) -> Result<Forwarded, SwitchFault>
    ensures value { MatchResult result (λ f. (refusal in_port frame.now ≡ None) × (f.ports ≡ ports_of (walk (map C.Classifier.rules switch.old.level.classifiers.items) (key_of in_port frame.now)))) (λ e. refusal in_port frame.now ≡ Some (refusal_of e)) }
    ensures counted { MatchResult result (λ _. map C.Classifier.rules switch.new.level.classifiers.items ≡ due (map C.Classifier.rules switch.old.level.classifiers.items) (key_of in_port frame.now) 1) (λ _. map C.Classifier.rules switch.new.level.classifiers.items ≡ map C.Classifier.rules switch.old.level.classifiers.items) }
    ensures depth { IfOk result (λ f. f.depth ≡ 1) }
    ensures totals { MatchResult result (λ f. switch.new.totals ≡ after_frame switch.old.totals f.depth) (λ _. switch.new.totals ≡ switch.old.totals) }
{
    switch.frame(in_port, frame)
}

// Four classifiers made of others. A struct that holds a type with facts of its own says the bound again.
#[derive(Drop)]
pub struct HeldFour<C: Classifier>
where
    Passed<C>: Classifier<Kind = <C as Classifier>::Kind>,
{
    pub four: Four<Passed<C>>,
}

// Where a key goes.
pub fn ports_of_held<C: Classifier>(held: &HeldFour<C>, key: &[u8; 36]) -> u64
    ensures { result ≡ ports_of (walk (map (λ s. C.Classifier.rules s.one) held.now.four.classifiers.items) key.now) }
{
    held.four.peek(key).ports
}
