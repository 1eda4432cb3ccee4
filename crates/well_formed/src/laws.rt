// What is proved of verdicts.
ghost use Rattle.well_formed.specs.Verdicts.{EachTreeHasAVerdict};

/// A tree is well-formed or has a first fault.
pub fn each_tree_has_a_verdict()
    ensures { EachTreeHasAVerdict }
{}
