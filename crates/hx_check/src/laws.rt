ghost use Rattle.hx_check.specs.Laws.{MayBeJudged};

/// What was read as a trace may be judged: its lines are numbered within the limit, and its entries name resources of their
/// life.
pub fn a_trace_that_was_read_may_be_judged()
    ensures { MayBeJudged }
{}
