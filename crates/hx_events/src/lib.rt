//! What happens in a working copy's life: resources, backups, events and their outcomes, and the texts that name them.
#![tactic(auto)]

mod backup;
mod bytes;
mod copies;
mod event;
mod items;
mod laws;
mod life;
mod names;
mod numbers;
mod outcome;
mod resource;
mod texts;

pub use backup::{Backup, CONTENT_MAX, PairFound, Side, SlotForm};
pub use bytes::Bytes;
pub use copies::{CopyFact, CopyState};
pub use event::{Actor, Command, Event, Stage};
pub use items::Items;
pub use laws::lines_of_two_events_differ;
pub use life::{Ended, Entry, Life};
pub use names::Names;
pub use numbers::{PairNo, ResNo};
pub use outcome::Outcome;
pub use resource::is_resource;
pub use texts::{line, outcome_text};
