// A list of ports as a script writes it.
ghost use Rattle.std.specs.Prelude.{◌≡◌, ℕ, Some, ◌==◌};
ghost use Rattle.std.specs.List.{slice_split};
ghost use Rattle.rule.specs.Ports.{bit_of, joined, and_all, ports_of};
ghost use Rattle.numeral.specs.Numbers.{number_of};

use numeral::number::number;

// A set with the port that a word writes.
fn join(set: u64, word: &str) -> Option<u64>
    ensures { result ≡ joined set (bit_of (number_of word.now)) }
{
    let port = number::<u64>(word).filter(|port| *port < 64)?;
    Some(set | (1u64 << port))
}

// The ports of words with commas between.
fn list(text: &str) -> Option<u64>
    ensures { result ≡ and_all (Some 0) (slice_split (λ b. b == 44) text.now) }
{
    let mut set = 0;
    for word in text.split(',') {
        set = join(set, word)?;
    }
    Some(set)
}

// The ports that a list names, as bits. Port 0 is taken here, and refused by the switch.
#[tactic(auto, unfolding(crate::specs::Ports::ports_of))]
pub fn ports(text: &str) -> Option<u64>
    ensures { result ≡ ports_of text.now }
{
    if text == "none" {
        return Some(0);
    }
    list(text)
}
