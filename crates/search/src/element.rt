// What a search asks of the elements of a tuple.
ghost use Rattle.std.specs.Prelude.{◌≡◌, ℕ, Bool, List};

pub trait Element {
    // what a search answers with this element
    type Answer;

    // the rank
    ghost level: { Self → ℕ };

    // whether the element takes part in searches
    ghost may: { Self → Bool };

    // the mask
    ghost masks: { Self → List ℕ };

    // the value
    ghost values: { Self → List ℕ };

    // the answer
    ghost says: { Self → Self.Answer };

    // Of two elements that cover a key, the one of higher rank answers.
    fn rank(&self) -> u16
        ensures { result ≡ level self.now };

    // Whether the element takes part in searches.
    fn may_answer(&self) -> bool
        ensures { result ≡ may self.now };

    fn mask(&self) -> &[u8; 36]
        ensures { result.now ≡ masks self.now };

    fn value(&self) -> &[u8; 36]
        ensures { result.now ≡ values self.now };

    fn answer(&self) -> Self::Answer
        ensures { result ≡ says self.now };
}
