ghost use Rattle.std.specs.Prelude.{◌≡◌, ℕ, false, true, List, [], ◌∷◌, ◌++◌, Option, Some, None, codes, option_map};
ghost use Rattle.hx_events.specs.declared.event.Stage.TheVariants.{Prepare, Fade, Drop};
ghost use Rattle.hx_events.specs.declared.outcome.Outcome.TheVariants.{Spent, Quit};
ghost use Rattle.hx_rules.specs.Entries.{past, own};
ghost use Rattle.hx_rules.specs.Versions.{last_version};
ghost use Rattle.hx_rules.specs.Copies.{dirty};
ghost use Rattle.hx_rules.specs.Backups.{done, halted, undone, opened};
ghost use Rattle.hx_rules.specs.Allowed.{allowed};
ghost use Rattle.hx_rules.specs.Due.{due_vault};
ghost use Rattle.hx_rules.specs.Legal.{is_legal, is_quiet};
ghost use Rattle.hx_rules_rows.specs.Story.{fresh, restored_with, vault, stage_ok, idle_vault, asks_quit, both_backed_up, hello, hello_again, IsWrong};
ghost use Rattle.hx_rules_rows.specs.Discards.{closed_story, faded_story, discarded_story, first_prepare_fails, first_body_fails, first_open_fails, second_prepare_fails, second_body_fails, second_open_fails, fade_fails, drop_fails, open_fails, begun_again, spent_story, vetoed_story, spent_again};

/// A closed copy's backups are discarded, the older one first: until the second step a crash brings the newer one back,
/// and never the older one.
pub fn a_discard_closes_the_newest_backup_last()
    ensures legal { is_legal fresh (past discarded_story) ≡ true }
    ensures closed { allowed None (own 0 (past closed_story)) ≡ Some hello_again ∷ [] }
    ensures faded { allowed None (own 0 (past faded_story)) ≡ Some hello_again ∷ [] }
    ensures dropped { allowed None (own 0 (past discarded_story)) ≡ None ∷ [] }
    ensures quiet { is_quiet fresh (past discarded_story) ≡ true }
    ensures newest_goes_last { IsWrong fresh closed_story (stage_ok Drop 0) }
    ensures not_while_dirty { IsWrong fresh both_backed_up (stage_ok Fade 0) }
{}

/// A fault at its last step leaves it open whether the newest backup is still there, and nothing more is due.
pub fn a_failed_drop_leaves_both_possible()
    ensures legal { is_legal fresh (past drop_fails) ≡ true }
    ensures possible { allowed None (own 0 (past drop_fails)) ≡ Some hello_again ∷ None ∷ [] }
    ensures undone { undone (own 0 (past drop_fails)) ≡ true }
    ensures halted { due_vault None false (own 0 (past drop_fails)) ≡ None }
{}

/// What a restart may find of a copy where one device call failed and all after it, for each place where that can be.
pub fn a_fault_leaves_the_last_completed_backup_or_the_begun_one()
    ensures first_prepare { is_legal fresh (past first_prepare_fails) ≡ true }
    ensures after_first_prepare { allowed None (own 0 (past first_prepare_fails)) ≡ None ∷ [] }
    ensures first_body { is_legal fresh (past first_body_fails) ≡ true }
    ensures after_first_body { allowed None (own 0 (past first_body_fails)) ≡ None ∷ [] }
    ensures first_open { is_legal fresh (past first_open_fails) ≡ true }
    ensures after_first_open { allowed None (own 0 (past first_open_fails)) ≡ None ∷ Some hello ∷ [] }
    ensures second_prepare { is_legal fresh (past second_prepare_fails) ≡ true }
    ensures after_second_prepare { allowed None (own 0 (past second_prepare_fails)) ≡ Some hello ∷ [] }
    ensures second_body { is_legal fresh (past second_body_fails) ≡ true }
    ensures after_second_body { allowed None (own 0 (past second_body_fails)) ≡ Some hello ∷ None ∷ [] }
    ensures second_open { is_legal fresh (past second_open_fails) ≡ true }
    ensures after_second_open { allowed None (own 0 (past second_open_fails)) ≡ Some hello ∷ Some hello_again ∷ [] }
    ensures fade { is_legal fresh (past fade_fails) ≡ true }
    ensures after_fade { allowed None (own 0 (past fade_fails)) ≡ Some hello_again ∷ [] }
{}

/// Where an Open failed, its backup may come back until the next backup begins to be written.
pub fn a_failed_open_is_taken_back_by_the_next_prepare()
    ensures legal { is_legal fresh (past begun_again) ≡ true }
    ensures possible { allowed None (own 0 (past open_fails)) ≡ Some hello ∷ Some hello_again ∷ [] }
    ensures taken_back { allowed None (own 0 (past begun_again)) ≡ Some hello ∷ [] }
    ensures waits_for_a_change { IsWrong fresh open_fails (stage_ok Prepare 3) }
{}

/// Where the stamps are used up, the restored backup stays, and the changed copy vetoes the end.
pub fn used_up_stamps_veto_the_end()
    ensures legal { is_legal (restored_with None (codes "hello")) (past vetoed_story) ≡ true }
    ensures version { last_version (Some record { resource = []; base = None; content = codes "hello" }) (own 0 (past vetoed_story)) ≡ 2 }
    ensures dirty { dirty (Some record { resource = []; base = None; content = codes "hello" }) (own 0 (past vetoed_story)) ≡ true }
    ensures backup { option_map (λ b. b.version) (done (Some record { resource = []; base = None; content = codes "hello" }) (own 0 (past vetoed_story))) ≡ Some 1 }
    ensures no_quit { IsWrong (restored_with None (codes "hello")) spent_story (asks_quit Quit) }
    ensures halted { IsWrong (restored_with None (codes "hello")) spent_story (vault Spent) }
    ensures for_good { IsWrong (restored_with None (codes "hello")) spent_again (stage_ok Prepare 3) }
{}
