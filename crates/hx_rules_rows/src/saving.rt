ghost use Rattle.std.specs.Prelude.{◌≡◌, ℕ, false, true, List, [], ◌∷◌, ◌++◌, Option, Some, None, codes, take, option_map};
ghost use Rattle.hx_events.specs.declared.event.Command.TheVariants.{Save};
ghost use Rattle.hx_events.specs.declared.event.Stage.TheVariants.{Fade};
ghost use Rattle.hx_events.specs.declared.outcome.Outcome.TheVariants.{Joined, Clean, Queued, Started, Saved as WasSaved, Checked};
ghost use Rattle.hx_rules.specs.declared.saves.SaveAnswer.TheVariants.{Saved, Clean as WasClean};
ghost use Rattle.hx_rules.specs.Entries.{past, own};
ghost use Rattle.hx_rules.specs.Versions.{last_content};
ghost use Rattle.hx_rules.specs.Copies.{dirty};
ghost use Rattle.hx_rules.specs.Saves.{answer, save_steps, version_asked};
ghost use Rattle.hx_rules.specs.Backups.{done};
ghost use Rattle.hx_rules.specs.Legal.{is_legal};
ghost use Rattle.hx_rules_rows.specs.Story.{fresh, stat, does, flush, save, stage_ok, idle_vault, IsWrong};
ghost use Rattle.hx_rules_rows.specs.Saving.{four_requests, queue_story, joined_story, forced_story, edited_before_write, written_story, backed_up_again_story};

/// Requests that come while an earlier version is being saved wait together, and the save that follows is of the version
/// that is the last one then. It answers them all.
pub fn waiting_requests_share_the_last_version()
    ensures legal { is_legal fresh (past queue_story) ≡ true }
    ensures first { answer 3 (save_steps None (own 0 (past queue_story))) ≡ Some (Saved 2) }
    ensures second { answer 5 (save_steps None (own 0 (past queue_story))) ≡ Some (Saved 5) }
    ensures third { answer 7 (save_steps None (own 0 (past queue_story))) ≡ Some (Saved 5) }
    ensures fourth { answer 9 (save_steps None (own 0 (past queue_story))) ≡ Some (Saved 5) }
    ensures asked { version_asked 7 (save_steps None (own 0 (past queue_story))) ≡ Some 4 }
    ensures not_yet { answer 5 (save_steps None (own 0 (past (take 11 queue_story)))) ≡ None }
    ensures content { (last_content None (own 0 (past queue_story))).content ≡ codes "dcba" }
    ensures clean { dirty None (own 0 (past queue_story)) ≡ false }
    // the version at the time of the request
    ensures no_old_version { IsWrong fresh (take 12 queue_story) (flush (WasSaved 3 (Some (stat 4000 2)))) }
    ensures no_second_start { IsWrong fresh (take 4 queue_story) (does save (Started 3)) }
    ensures not_joined { IsWrong fresh (take 4 queue_story) (does save Joined) }
{}

/// A request for the version that is being saved joins that save; one for a clean copy is answered Clean, unless it is
/// forced.
pub fn a_request_joins_or_finds_nothing_to_save()
    ensures legal { is_legal fresh (past forced_story) ≡ true }
    ensures joined { answer 4 (save_steps None (own 0 (past joined_story))) ≡ Some (Saved 2) }
    ensures clean { answer 7 (save_steps None (own 0 (past forced_story))) ≡ Some WasClean }
    ensures forced { answer 8 (save_steps None (own 0 (past forced_story))) ≡ Some (Saved 2) }
    ensures not_queued { IsWrong fresh (take 3 forced_story) (does save Queued) }
    ensures no_save_of_a_clean_copy { IsWrong fresh joined_story (does save (Started 2)) }
    ensures force_is_heeded { IsWrong fresh joined_story (does (Save 0 true false) Clean) }
{}

/// A completed save of a version that isn't the last one leaves the copy dirty, so its last version is backed up.
pub fn an_edit_before_the_write_leaves_the_copy_dirty()
    ensures legal { is_legal fresh (past backed_up_again_story) ≡ true }
    ensures dirty { dirty None (own 0 (past written_story)) ≡ true }
    ensures done { option_map (λ b. b.version) (done None (own 0 (past backed_up_again_story))) ≡ Some 3 }
    ensures work_is_left { IsWrong fresh written_story idle_vault }
    ensures nothing_to_discard { IsWrong fresh written_story (stage_ok Fade 0) }
    ensures only_the_running_version { IsWrong fresh edited_before_write (flush (WasSaved 3 (Some (stat 5000 2)))) }
{}
