ghost use Rattle.std.specs.Prelude.{◌≡◌, ◌<◌, ◌^◌};
ghost use Rattle.hx_report.specs.Outlines.{answer_by, share_by};

use crate::saves::Saves;
use hx_events::Outcome;
use hx_rules::SaveAnswer;

/// Whose answer a request to save shares.
#[derive(Clone, Copy)]
pub(crate) enum Share {
    /// Nobody's: it wasn't answered as a request is.
    Nothing,

    /// It was answered at once: there was nothing to save.
    AtOnce,

    /// That of the save with this number, counted per resource from 0.
    Save(usize),
}

// Whose answer a request with this outcome shares, where so many saves of its resource have ended. The running save has the
// next number, and the one that waits the number behind it.
pub(crate) fn share_by(outcome: &Outcome, ended: usize) -> Share
    requires { ended < 2 ^ 63 }
    ensures { result ≡ share_by outcome.now ended }
{
    match outcome {
        Outcome::Joined => Share::Save(ended),
        Outcome::Clean => Share::AtOnce,
        Outcome::Queued => Share::Save(ended + 1),
        Outcome::Started(_) => Share::Save(ended),
        _ => Share::Nothing,
    }
}

// The answer of a request that shares it, once it is there.
pub(crate) fn answer_by(saves: &Saves, share: Share) -> Option<SaveAnswer>
    ensures { result ≡ answer_by saves.now.answers share }
{
    match share {
        Share::Nothing => None,
        Share::AtOnce => Some(SaveAnswer::Clean),
        Share::Save(number) => saves.answer(number),
    }
}
