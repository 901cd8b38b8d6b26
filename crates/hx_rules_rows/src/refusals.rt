ghost use Rattle.std.specs.Prelude.{◌≡◌, ℕ, false, true, List, [], ◌∷◌, ◌++◌, Option, Some, None, codes, take, option_map};
ghost use Rattle.hx_events.specs.declared.event.Command.TheVariants.{Create, Open, Edit};
ghost use Rattle.hx_events.specs.declared.event.Stage.TheVariants.{Body, Open as OpenGate, Prepare};
ghost use Rattle.hx_events.specs.declared.outcome.Outcome.TheVariants.{Created, Opened, Edited, Closed, TooLarge, Vetoed, Checked, NoPair, Reverted};
ghost use Rattle.hx_rules.specs.declared.saves.SaveAnswer.TheVariants.{DiskFault, ModifiedSince, Saved};
ghost use Rattle.hx_rules.specs.Entries.{past, own};
ghost use Rattle.hx_rules.specs.Versions.{last_content};
ghost use Rattle.hx_rules.specs.Copies.{dirty, kept};
ghost use Rattle.hx_rules.specs.Saves.{answer, save_steps};
ghost use Rattle.hx_rules.specs.Backups.{done};
ghost use Rattle.hx_rules.specs.Legal.{is_legal, opening_of};
ghost use Rattle.hx_rules_rows.specs.Story.{fresh, stat, does, flush, create, close, insert, stage_ok, asks_quit, IsWrong};
ghost use Rattle.hx_rules_rows.specs.Refusals.{limits_story, refusals_story, write_fault_story, one_block_written, two_blocks_written, blocks_story, one_pair_free, pairs_story, two_resources, two_dirty, reverted_story, found_pairs};

/// A content has at most 524,288 bytes, and an edit stays within it.
pub fn an_edit_stays_within_its_limits()
    ensures legal { is_legal fresh (past limits_story) ≡ true }
    ensures size { (last_content None (own 0 (past limits_story))).size ≡ 524288 }
    ensures opened_too_large { IsWrong fresh [] (does (Open 0) (Opened (stat 1 524289))) }
    ensures edited_too_large { IsWrong fresh (take 2 limits_story) (does (insert 0 (codes "y")) (Edited 3)) }
    ensures wrong_refusal { IsWrong fresh (take 4 limits_story) (does (Edit 0 1 18446744073709551615 []) TooLarge) }
{}

/// A command is refused where its copy isn't there, is there already, or is being saved.
pub fn refusals_come_by_the_state_of_the_copy()
    ensures legal { is_legal fresh (past refusals_story) ≡ true }
    ensures no_second_copy { IsWrong fresh (take 3 refusals_story) (does (Create 0) (Created 2)) }
    ensures no_close_while_saving { IsWrong fresh (take 5 refusals_story) close }
{}

/// A failed write leaves the stat that the copy kept, so the next check finds that the file was changed.
pub fn a_failed_write_is_found_by_the_next_check()
    ensures legal { is_legal fresh (past write_fault_story) ≡ true }
    ensures first { answer 3 (save_steps None (own 0 (past write_fault_story))) ≡ Some DiskFault }
    ensures second { answer 6 (save_steps None (own 0 (past write_fault_story))) ≡ Some ModifiedSince }
    ensures third { answer 8 (save_steps None (own 0 (past write_fault_story))) ≡ Some (Saved 2) }
    ensures kept { kept None (own 0 (past (take 5 write_fault_story))) ≡ Some (stat 500 3) }
    ensures still_dirty { dirty None (own 0 (past (take 5 write_fault_story))) ≡ true }
    ensures no_silent_overwrite { IsWrong fresh (take 6 write_fault_story) (flush (Checked (Some (stat 3000 4)))) }
{}

/// A backup is written block by block, and edits that come between the blocks don't end it.
pub fn a_backup_has_as_many_blocks_as_its_content()
    ensures legal { is_legal fresh (past blocks_story) ≡ true }
    ensures version { option_map (λ b. b.version) (done None (own 0 (past blocks_story))) ≡ Some 2 }
    ensures no_early_open { IsWrong fresh one_block_written (stage_ok OpenGate 2) }
    ensures no_third_block { IsWrong fresh two_blocks_written (stage_ok Body 2) }
    ensures not_given_up { IsWrong fresh one_block_written (stage_ok Prepare 3) }
{}

/// A copy needs a pair of slot files; a closed one of which nothing may show gives its pair up.
pub fn a_copy_needs_a_pair()
    ensures legal { is_legal one_pair_free (past pairs_story) ≡ true }
    ensures no_pair_left { IsWrong one_pair_free (take 1 pairs_story) (does (Create 1) (Created 1)) }
    ensures a_pair_is_left { IsWrong one_pair_free (take 3 pairs_story) (does (Create 1) NoPair) }
{}

/// The lowest copy that isn't safe vetoes the end.
pub fn the_lowest_unsafe_copy_vetoes()
    ensures legal { is_legal two_resources (past (two_dirty ++ asks_quit (Vetoed 0) ∷ [])) ≡ true }
    ensures not_the_other { IsWrong two_resources two_dirty (asks_quit (Vetoed 1)) }
{}

/// A revert to an older file keeps the newer stat.
pub fn a_revert_keeps_the_newer_stat()
    ensures legal { is_legal fresh (past reverted_story) ≡ true }
    ensures kept { kept None (own 0 (past reverted_story)) ≡ Some (stat 9000 3) }
    ensures clean { dirty None (own 0 (past reverted_story)) ≡ false }
    ensures content { (last_content None (own 0 (past reverted_story))).content ≡ codes "older" }
{}

/// What a life begins with: the lowest pair's backup of each name, and how many pairs are barred.
pub fn a_life_begins_with_what_was_found()
    ensures opening { opening_of (codes "a" ∷ codes "b" ∷ []) found_pairs false ≡ record { restored = Some record { resource = codes "a"; base = None; content = codes "hello" } ∷ None ∷ []; barred = 2; guarded = false } }
{}
