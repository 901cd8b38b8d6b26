ghost use Rattle.std.specs.Prelude.{◌≡◌, true, false};
ghost use Rattle.hx_rules.specs.Versions.{adds_version};
ghost use Rattle.hx_rules.specs.Backups.{is_change, halted_after, opened_after, faded_after, write_failed_after};
ghost use Rattle.hx_resource.specs.Kept.{done_version_after, safe_to_after, later};

use hx_events::{Outcome, Stage};

pub(crate) fn is_new_version(outcome: Outcome) -> bool
    ensures { result ≡ adds_version outcome }
{
    matches!(
        outcome,
        Outcome::Opened(_)
            | Outcome::Created(_)
            | Outcome::Edited(_)
            | Outcome::Undone(_)
            | Outcome::Redone(_)
            | Outcome::Reverted(_)
    )
}

pub(crate) fn changes(outcome: Outcome) -> bool
    ensures { result ≡ is_change outcome }
{
    match outcome {
        Outcome::Closed => true,
        Outcome::Saved(_, _) => true,
        _ => is_new_version(outcome),
    }
}

pub(crate) fn halted_after(outcome: Outcome, was: bool) -> bool
    ensures { result ≡ halted_after outcome was }
{
    match outcome {
        Outcome::StageFault(_, _) => true,
        Outcome::Spent => true,
        _ => !changes(outcome) && was,
    }
}

pub(crate) fn opened_after(outcome: Outcome, was: bool) -> bool
    ensures { result ≡ opened_after outcome was }
{
    match outcome {
        Outcome::StageOk(stage, _) => match stage {
            Stage::Open => true,
            Stage::Drop => false,
            _ => was,
        },
        Outcome::StageFault(stage, _) => match stage {
            Stage::Open => true,
            _ => was,
        },
        _ => was,
    }
}

pub(crate) fn faded_after(outcome: Outcome, was: bool) -> bool
    ensures { result ≡ faded_after outcome was }
{
    match outcome {
        Outcome::StageOk(stage, _) => matches!(stage, Stage::Fade),
        Outcome::StageFault(_, _) => false,
        Outcome::Spent => false,
        _ => was,
    }
}

pub(crate) fn write_failed_after(outcome: Outcome, was: bool) -> bool
    ensures { result ≡ write_failed_after outcome was }
{
    match outcome {
        Outcome::WriteFault(_) => true,
        Outcome::Saved(_, _) => false,
        _ => was,
    }
}

pub(crate) fn done_after(outcome: Outcome, was: Option<u64>) -> Option<u64>
    ensures { result ≡ done_version_after outcome was }
{
    match outcome {
        Outcome::StageOk(stage, version) => match stage {
            Stage::Open => Some(version),
            Stage::Drop => None,
            _ => was,
        },
        _ => was,
    }
}

fn later_of(version: u64, was: Option<u64>) -> u64
    ensures { result ≡ later version was }
{
    match was {
        None => version,
        Some(other) => version.max(other),
    }
}

pub(crate) fn safe_after(outcome: Outcome, was: Option<u64>) -> Option<u64>
    ensures { result ≡ safe_to_after outcome was }
{
    match outcome {
        Outcome::StageOk(stage, version) => match stage {
            Stage::Open => Some(later_of(version, was)),
            Stage::Drop => None,
            _ => was,
        },
        Outcome::StageFault(stage, _) => match stage {
            Stage::Drop => None,
            _ => was,
        },
        _ => was,
    }
}
