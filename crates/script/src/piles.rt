// What a script says that its two switches are made of.
ghost use Rattle.std.specs.Prelude.{◌≡◌};
ghost use Rattle.script.specs.Piles.{piles_of, set_up};

use super::statement::{Numbered, Pile, Side, Statement};
use pile::ClassifierKind;
use sides::Sides;

// One of the two is made as a statement says.
fn set_up(piles: Sides<Pile>, statement: &Statement) -> Sides<Pile>
    ensures { result ≡ set_up piles statement.now }
{
    match statement {
        Statement::Switch {
            side: Side::A,
            pile,
        } => Sides {
            a: *pile,
            b: piles.b,
        },
        Statement::Switch {
            side: Side::B,
            pile,
        } => Sides {
            a: piles.a,
            b: *pile,
        },
        _ => piles,
    }
}

// Linear classifiers where nothing is said; where it is said twice of a switch, the last holds.
pub fn piles_of(script: &[Numbered]) -> Sides<Pile>
    ensures { result ≡ piles_of script.now }
{
    let linear = Pile {
        classifier: ClassifierKind::Linear,
    };
    let unsaid = Sides {
        a: linear,
        b: linear,
    };
    script.iter().fold(unsaid, |piles, numbered| set_up(piles, &numbered.statement))
}
