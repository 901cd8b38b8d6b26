ghost use Rattle.hx_restore.specs.Laws.{OnlyPair, ShowsFirst, SameShown, OwnFiles};

/// A restart finds of a resource what the first pair has of it, and so what one pair has of it where no other has any. What
/// it finds changes only where a pair's own backup of the resource does, and a pair's value only where its own two files do.
#[tactic(auto, using(crate::specs::Laws::only_pair, crate::specs::Laws::shows_first, crate::specs::Laws::same_shown, crate::specs::Laws::own_files))]
pub fn what_a_restart_finds_of_a_resource()
    ensures first { ShowsFirst }
    ensures only { OnlyPair }
    ensures same { SameShown }
    ensures own { OwnFiles }
{}
