//! What comes of an exit at the end of a script.

ghost use Rattle.std.specs.Prelude.{◌≡◌, ◌<◌, IfOk, length, ℕ};
ghost use Rattle.hx_report.specs.Traces.{AreWhole};
ghost use Rattle.hx_top.specs.Asking.{decision_text, exit_text};

use crate::exits::ExitOrder;
use hx_events::{Life, Names};
use hx_exit::{Decision, decide};
use hx_report::facts;
use std::alloc::{AllocError, Global};

fn decision_text(alloc: Global, names: &Names, decision: Decision) -> Result<Vec<u8>, AllocError>
    requires { (c : ℕ) → decision ≡ Decision.Confirm c → c < length names.now }
    ensures { IfOk result (λ text. text.items ≡ decision_text names.now decision) }
{
    match decision {
        Decision::Close => Vec::from_slice(alloc, b"close\n"),
        Decision::Confirm(res) => {
            let mut text = Vec::from_slice(alloc, b"confirm ")?;
            text.extend_from_slice(names.text(res))?;
            text.push(b'\n')?;
            Ok(text)
        }
    }
}

/// What is printed of an exit at the end of the last of these lives, the oldest first.
pub fn exit_text(alloc: Global, order: ExitOrder, lives: &[Life]) -> Result<Vec<u8>, AllocError>
    requires { AreWhole lives.now }
    ensures { IfOk result (λ text. text.items ≡ exit_text order lives.now) }
{
    let count = lives.len();
    if count == 0 {
        return Ok(Vec::new(alloc));
    }
    let life = &lives[count - 1];
    let copies = facts(alloc, life)?;
    let decision = decide(order.setting, order.ending, order.situation, &copies);
    decision_text(alloc, &life.names, decision)
}
