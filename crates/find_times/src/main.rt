// How long finds take, and what they answer, for 64 rules: bench/README.md.
#![tactic(auto)]

mod samples;

use classifier::{Classifier, Find, NewRule};
use flow::MaskedKey;
use pile::{AnyClassifier, ClassifierKind};
use samples::{Aim, Random, Sample};
use std::env;
use std::io::Write;
use std::time::Instant;

// A table of the rules, whose ids count from 1.
fn table_of(
    rt: &HostRuntime,
    kind: ClassifierKind,
    rules: &[Sample],
) -> anyhow::Result<AnyClassifier> {
    let mut table = <AnyClassifier as Classifier>::new(rt.alloc(), kind)?;
    for (id, rule) in (1u32..).zip(rules) {
        if let Ok(key) = MaskedKey::from_row(&rule.mask, &rule.value) {
            let _ = table.add(&NewRule::dropping(id, rule.priority, key));
        }
    }
    Ok(table)
}

// The id of the rule that was found, 0 for none.
fn id_of(find: &Find) -> u32 {
    find.id().unwrap_or(0)
}

// Finds every key. What is found goes into the sum and the mask, so that no find is left out.
fn find_all(table: &AnyClassifier, keys: &[[u8; 36]], sum: &mut u32, mask: &mut [u8; 36]) {
    for key in keys {
        let find = table.find(key);
        *sum = sum.wrapping_add(id_of(&find));
        flow::union_into(mask, &find.mask);
    }
}

// The least time of a round over the keys, in nanoseconds.
fn least(rt: &HostRuntime, table: &AnyClassifier, keys: &[[u8; 36]]) -> anyhow::Result<u128> {
    let mut sum: u32 = 0;
    let mut mask = flow::empty_mask();
    let mut least = u128::MAX;
    for _ in 0..21 {
        let start = Instant::now(rt)?;
        find_all(table, keys, &mut sum, &mut mask);
        least = least.min(start.elapsed(rt)?.as_nanos());
    }
    // never so, but the compiler does not know it
    if sum == 0 && mask[0] == 1 {
        println!(rt; "nothing found")?;
    }
    Ok(least)
}

// Writes the answers: the id in 4 bytes, then the mask.
fn answers(rt: &HostRuntime, table: &AnyClassifier, keys: &[[u8; 36]]) -> anyhow::Result<()> {
    let mut out = Vec::new(rt.alloc());
    for key in keys {
        let find = table.find(key);
        out.extend_from_slice(&id_of(&find).to_le_bytes())?;
        out.extend_from_slice(&find.mask)?;
    }
    rt.stdout().write_all(&out)?;
    Ok(())
}

// Prints the ids that are found.
fn print_ids(rt: &HostRuntime, table: &AnyClassifier, keys: &[[u8; 36]]) -> anyhow::Result<()> {
    for key in keys {
        println!(rt; "{}", id_of(&table.find(key)))?;
    }
    Ok(())
}

#[derive(Clone, Copy)]
enum Task {
    Ids,
    Answers,
    Time,
}

// What the arguments ask for.
#[derive(Clone, Copy)]
struct Settings {
    task: Task,
    kind: ClassifierKind,
    tuples: u8,
    aim: Aim,
    keys: usize,
}

// Words in any order; a number up to 64 is that of the tuples, another that of the keys.
fn from_arguments(rt: &HostRuntime) -> anyhow::Result<Settings> {
    let mut asked = Settings {
        task: Task::Ids,
        kind: ClassifierKind::Tuple,
        tuples: 16,
        aim: Aim::Mixed,
        keys: 16,
    };
    for word in env::args(rt)?.skip(1) {
        match word.as_str() {
            "answers" => asked.task = Task::Answers,
            "time" => asked.task = Task::Time,
            "linear" => asked.kind = ClassifierKind::Linear,
            "tuple" => asked.kind = ClassifierKind::Tuple,
            "hit" => asked.aim = Aim::Hit,
            "miss" => asked.aim = Aim::Miss,
            number => {
                let number = number.parse::<usize>()?;
                if number <= 64 {
                    asked.tuples = number as u8;
                } else {
                    asked.keys = number;
                }
            }
        }
    }
    Ok(asked)
}

fn main(rt: HostRuntime) -> anyhow::Result<()> {
    let asked = from_arguments(&rt)?;
    let mut random = Random { state: 1 };
    let rules = samples::rules(rt.alloc(), &mut random, asked.tuples)?;
    let keys = samples::keys(rt.alloc(), &mut random, &rules, asked.aim, asked.keys)?;
    let table = table_of(&rt, asked.kind, &rules)?;
    match asked.task {
        Task::Ids => print_ids(&rt, &table, &keys),
        Task::Answers => answers(&rt, &table, &keys),
        Task::Time => {
            println!(rt; "{}", least(&rt, &table, &keys)?)?;
            Ok(())
        }
    }
}
