// The laws of the walk: facts about every four tables and every key, above the definition that the contracts cite.
ghost use Rattle.datapath.specs.Laws.{WalkLaws};

// In each table the matching rule of highest priority is crossed; and how counts move along a walk.
pub fn walk_laws()
    ensures { WalkLaws }
{}
