// The worked examples of the datapath, as one theorem over the definitions that the contracts cite.
#![tactic(auto)]

ghost use Rattle.worked.specs.Examples.{WorkedExamples};

// Stands for the theorem: the gate asks for its proof here.
pub fn worked_examples()
    ensures { WorkedExamples }
{}
