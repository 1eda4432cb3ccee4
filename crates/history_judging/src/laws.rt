// The law of judged histories that the layers above rest on.
ghost use Rattle.history_judging.specs.Laws.{MorePlansJudgeAlike};

/// A history that was judged is so with more plans, too.
pub fn more_plans_judge_alike()
    ensures { MorePlansJudgeAlike }
{}
