// The two switches of a script, A and B.
#![tactic(auto)]

// The same thing of both switches.
#[derive(Debug, Clone, Copy, PartialEq, Eq, Drop)]
pub struct Sides<T> {
    pub a: T,
    pub b: T,
}
