ghost use Rattle.std.specs.Prelude.{◌≡◌};
ghost use Rattle.hx_rules.specs.Due.{due_by};

use hx_events::Stage;
use hx_rules::Flags;

/// The vault stage that is due, the first of these: none while the copy is halted; the next stage of a begun backup; a
/// Prepare, where the running save waits for a backup of its version, or where the copy is dirty and its last version isn't
/// backed up; where no backup is wanted and a gate was opened, a Drop after a completed Fade, else a Fade, unless a failed
/// write still waits for a save that makes it good; none.
pub fn due(flags: Flags) -> Option<Stage>
    ensures { result ≡ due_by flags }
{
    if flags.halted {
        return None;
    }
    if flags.begun.is_some() {
        return flags.begun;
    }
    if flags.held && !flags.safe || flags.dirty && !flags.backed {
        return Some(Stage::Prepare);
    }
    let wanted = flags.dirty || flags.held;
    if wanted || !flags.opened || flags.keep {
        return None;
    }
    Some(if flags.faded {
        Stage::Drop
    } else {
        Stage::Fade
    })
}
