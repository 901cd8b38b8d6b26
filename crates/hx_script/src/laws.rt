//! Laws of the definitions. There is nothing to run.

ghost use Rattle.hx_script.specs.Laws.{ReadsBack, ReadsBackInScript, CountsLives};

/// A line that `line` of `hx_events` wrote reads as its event again, in a trace as in a script, where there is a line for the
/// actor and the event, and the resource is among the names.
pub fn a_line_reads_as_its_event()
    ensures event { ReadsBack }
    ensures step { ReadsBackInScript }
{}

/// The lives that follow a script's steps are one more than the crashes and restarts among them.
pub fn there_is_one_life_more_than_ends()
    ensures { CountsLives }
{}
