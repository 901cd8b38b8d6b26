//! Who answers an event, and what the device may answer.

use hx_etag::Stat;
use hx_events::{Bytes, Outcome, ResNo, Stage};

/// Who answers an event.
#[derive(Clone, Copy, Debug, PartialEq, Eq)]
pub enum Asked {
    /// The rules alone: this is the outcome.
    Settled(Outcome),

    /// The device, by this work.
    Device(Work),
}

/// What a device has to do for an event.
#[derive(Clone, Copy, Debug, PartialEq, Eq)]
pub enum Work {
    /// Ask the stat of the resource's file, and read the content where the size is within the limit.
    ReadFile(ResNo),

    /// Another program's write, as the command says it.
    OutsideWrite,

    /// Ask the stat of the resource's file before it is saved.
    Check(ResNo),

    /// Write the version that is being saved to the resource's file, and ask the stat then.
    Write(ResNo),

    /// Do this vault stage for the resource.
    Vault(ResNo, Stage),
}

/// What the device answered.
#[derive(Drop)]
pub enum Got {
    /// It wasn't asked.
    Nothing,

    /// A call failed.
    Failed,

    /// An outside write or a vault stage was done.
    Done,

    /// The vault's stamps are used up.
    Spent,

    /// The file has this stat, or there is none.
    Found(Option<Stat>),

    /// The file has this stat and this content.
    Read(Stat, Bytes),

    /// The file has this stat, and is larger than a content may be.
    Big(Stat),
}
