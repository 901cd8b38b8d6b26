ghost use Rattle.hx_rules_laws.specs.Kept.{KeepsLastOfGreatest};
ghost use Rattle.hx_rules_laws.specs.Sizes.{SizesAreLengths};
ghost use Rattle.hx_rules_laws.specs.Limits.{ContentsAreShort};
ghost use Rattle.hx_rules_laws.specs.Trails.{LastVersionCounts, TrailsChange};
ghost use Rattle.hx_rules_laws.specs.Copies.{CopiesChange, TrailIsWithinVersions};

/// The stat that a copy keeps is, of those that it found since it was opened or created, the last among those of the
/// greatest time.
#[tactic(auto, using(crate::specs::Kept::keeps_last_of_greatest))]
pub fn a_copy_keeps_the_last_stat_of_the_greatest_time()
    ensures { KeepsLastOfGreatest }
{}

/// A version id counts the versions, and an edit, an undo and a redo move on the trail as its list of ids and its place
/// say.
#[tactic(auto, using(crate::specs::TrailLaws::last_version_counts, crate::specs::TrailLaws::trails_change))]
pub fn how_versions_and_trail_grow()
    ensures versions { LastVersionCounts }
    ensures trail { TrailsChange }
{}

/// What each outcome does to a copy, and when the copy is clean or dirty after it.
pub fn what_each_outcome_does_to_a_copy()
    ensures copy { CopiesChange }
    ensures ids { TrailIsWithinVersions }
{}

/// After a legal history that kept what was read, the size of each version is the length of its content.
pub fn sizes_are_the_lengths_of_contents()
    ensures { SizesAreLengths }
{}

/// After a legal history that kept what was read, no version is longer than a content may be, where no longer one was
/// restored.
pub fn no_content_is_past_the_limit()
    ensures { ContentsAreShort }
{}
