//! A law of the texts.

ghost use Rattle.hx_events.specs.Lines.{LinesDiffer};

/// Two lines over the same names have the same text only where they are of the same actor and the same event. So whoever
/// reads a line can tell which event it was. There is nothing to run.
pub fn lines_of_two_events_differ()
    ensures { LinesDiffer }
{}
