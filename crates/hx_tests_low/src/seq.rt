use hx_seq::{Asked, Next, SaveAnswer, Sequencer};
use std::test::Fail;

#[test]
fn waiting_requests_share_the_last_version(rt: HostRuntime) -> Result<(), Fail> {
    let mut sequencer = Sequencer::new(rt.alloc());
    sequencer.reserve()?;
    assert!(rt; sequencer.ask(3, 2, true, false, false) == Asked::Started);
    sequencer.reserve()?;
    assert!(rt; sequencer.ask(5, 3, true, false, false) == Asked::Queued);
    sequencer.reserve()?;
    assert!(rt; sequencer.ask(7, 4, true, false, false) == Asked::Queued);
    sequencer.checked();
    assert!(rt; sequencer.finish(5, true, SaveAnswer::Saved(2)) == Next::Started);
    assert!(rt; sequencer.answer_of(3) == Some(SaveAnswer::Saved(2)));
    assert!(rt; sequencer.answer_of(5).is_none() && sequencer.answer_of(4).is_none());
    let version = sequencer.running().map(|run| run.version);
    assert!(rt; version == Some(5) && sequencer.running().is_some());
    assert!(rt; sequencer.finish(5, false, SaveAnswer::Saved(5)) == Next::Empty);
    assert!(rt; sequencer.answer_of(5) == Some(SaveAnswer::Saved(5)));
    assert!(rt; sequencer.answer_of(7) == Some(SaveAnswer::Saved(5)));
    Ok(())
}
