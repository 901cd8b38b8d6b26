//! How the copies of a life stand at its end, as an exit asks of them.

ghost use Rattle.std.specs.Prelude.{◌≡◌, ◌++◌, length, IfOk, OnOk};
ghost use Rattle.hx_report.specs.Traces.{IsWhole};
ghost use Rattle.hx_report.specs.Copies.{copies_at_end, fact_of_outline, facts_of_outlines};

use crate::outline::Outline;
use crate::tally::Tally;
use hx_events::{CopyFact, Life, Names, ResNo};
use std::alloc::{AllocError, Global};

/// The registered copies at the end of a life, in the order of their numbers: of each whether it is dirty, and whether its
/// completed backup is of its last version. They are those of the rules for any history, also one that isn't legal. The
/// history is read once.
pub fn facts(alloc: Global, life: &Life) -> Result<Vec<CopyFact>, AllocError>
    requires { IsWhole life.now }
    ensures { IfOk result (λ facts. facts.items ≡ copies_at_end life.now) }
{
    let tally = Tally::of_life(alloc, life)?;
    facts_of(alloc, &life.names, tally.outlines.as_slice())
}

fn facts_of(alloc: Global, names: &Names, outlines: &[Outline]) -> Result<Vec<CopyFact>, AllocError>
    requires { length outlines.now ≡ length names.now }
    ensures { IfOk result (λ facts. facts.items ≡ facts_of_outlines outlines.now (length names.now)) }
{
    let mut facts = Vec::new(alloc);
    for place in 0..names.len() {
        put_fact(&mut facts, ResNo::new(place as u32), &outlines[place])?;
    }
    Ok(facts)
}

fn put_fact(facts: &mut Vec<CopyFact>, res: ResNo, outline: &Outline) -> Result<(), AllocError>
    ensures { OnOk result (facts.new.items ≡ facts.old.items ++ fact_of_outline res outline.now) }
{
    if outline.registered {
        facts.push(CopyFact {
            res,
            dirty: outline.is_dirty(),
            backed: outline.is_backed(),
        })?;
    }
    Ok(())
}
