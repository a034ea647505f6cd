// The rules of one table, as classifiers keep them: by falling priority and then by rising id.
ghost use Rattle.std.specs.Prelude.{◌≡◌, ◌≤◌, true, vec_capacity};
ghost use Rattle.classifier.specs.Stores.{standing};

use super::rule::Rule;

mod methods;
mod scan;

#[derive(Drop)]
pub struct Store {
    rules: Vec<Rule>,
    ghost room: { 64 ≤ vec_capacity rules },
    ghost ok: { standing rules.items ≡ true },
}
