ghost use Rattle.hx_slots.specs.Laws.{EmptyFramesNothing, ShownWithin};

/// An empty file has no frame, whatever gate a torn write may leave in it.
#[tactic(auto, using(crate::specs::Laws::empty_frames_nothing))]
pub fn an_empty_file_frames_nothing()
    ensures { EmptyFramesNothing }
{}

/// A reader of a slot file needs its first 534,305 bytes and no more.
#[tactic(auto, using(crate::specs::Laws::shown_within))]
pub fn what_a_slot_file_shows_stands_within_its_first_bytes()
    ensures { ShownWithin }
{}
