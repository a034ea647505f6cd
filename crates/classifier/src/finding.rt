// The law of finding: a fact about every table, above the definition that the contracts of find cite.
ghost use Rattle.classifier.specs.Laws.{BestDecides};

// The best rule of a table is the matching one of highest priority; there is none only where no rule matches.
pub fn classifier_laws()
    ensures { BestDecides }
{}
