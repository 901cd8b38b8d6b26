ghost use Rattle.std.specs.Prelude.{◌≡◌, ℕ, false, true, List, [], ◌∷◌, ◌++◌, Option, Some, None, codes, take};
ghost use Rattle.hx_events.specs.declared.event.Command.TheVariants.{Undo, Redo};
ghost use Rattle.hx_events.specs.declared.event.Stage.TheVariants.{Prepare};
ghost use Rattle.hx_events.specs.declared.outcome.Outcome.TheVariants.{Undone, Redone, Started, Saved as WasSaved};
ghost use Rattle.hx_rules.specs.declared.saves.SaveAnswer.TheVariants.{Saved, Clean};
ghost use Rattle.hx_rules.specs.Entries.{past, own};
ghost use Rattle.hx_rules.specs.Versions.{alternative, last_content, last_version, trail, trail_of};
ghost use Rattle.hx_rules.specs.Copies.{dirty};
ghost use Rattle.hx_rules.specs.Saves.{answer, save_steps};
ghost use Rattle.hx_rules.specs.Backups.{snapshot, done};
ghost use Rattle.hx_rules.specs.Allowed.{allowed};
ghost use Rattle.hx_rules.specs.Legal.{is_legal};
ghost use Rattle.hx_rules_rows.specs.Story.{fresh, stat, does, flush, save, stage_ok, hello_backed_up, IsWrong};
ghost use Rattle.hx_rules_rows.specs.Undos.{walk_story, walk_backed_up, undone_to_created, undone_to_saved, undone_while_saving, redone_while_saving};

/// Each undo and redo makes a new version. An edit forgets what could be redone.
pub fn undo_and_redo_walk_on_a_trail()
    ensures legal { is_legal fresh (past walk_backed_up) ≡ true }
    ensures undone { (last_content None (own 0 (past (take 4 walk_story)))).content ≡ codes "a" }
    ensures undone_twice { (last_content None (own 0 (past (take 5 walk_story)))).content ≡ codes "" }
    ensures other_way { (last_content None (own 0 (past walk_story))).content ≡ codes "ac" }
    ensures trail { trail None (own 0 (past walk_story)) ≡ trail_of (7 ∷ 2 ∷ 1 ∷ []) [] }
    ensures backed_up { done None (own 0 (past walk_backed_up)) ≡ Some (snapshot 7 None (codes "ac")) }
    ensures no_third_undo { IsWrong fresh (take 5 walk_story) (does (Undo 0) (Undone 6)) }
    ensures no_redo_after_an_edit { IsWrong fresh (take 8 walk_story) (does (Redo 0) (Redone 8)) }
{}

/// An undo that brings back the clean state makes the copy clean, and its backup is discarded.
pub fn an_undo_to_the_created_state_discards()
    ensures legal { is_legal fresh (past undone_to_created) ≡ true }
    ensures clean { dirty None (own 0 (past undone_to_created)) ≡ false }
    ensures nothing { allowed None (own 0 (past undone_to_created)) ≡ None ∷ [] }
    ensures no_backup { IsWrong fresh (take 6 undone_to_created) (stage_ok Prepare 3) }
{}

/// The clean state is the saved one after a completed save of the last version.
pub fn an_undo_to_the_saved_state_is_clean()
    ensures legal { is_legal fresh (past undone_to_saved) ≡ true }
    ensures before { dirty None (own 0 (past (take 6 undone_to_saved))) ≡ true }
    ensures clean { dirty None (own 0 (past undone_to_saved)) ≡ false }
    ensures alternative { alternative None (own 0 (past undone_to_saved)) ≡ 2 }
    ensures no_save { IsWrong fresh (take 7 undone_to_saved) (does save (Started 4)) }
{}

/// A completed save of a version that isn't the last one leaves the clean state as it was.
pub fn an_undo_while_a_save_runs()
    ensures legal { is_legal fresh (past undone_while_saving) ≡ true }
    ensures version { last_version None (own 0 (past undone_while_saving)) ≡ 3 }
    ensures clean { dirty None (own 0 (past undone_while_saving)) ≡ false }
    ensures answers { answer 7 (save_steps None (own 0 (past undone_while_saving))) ≡ Some Clean }
{}

/// A redo brings the same content back, and yet it is another version: the save that waits is made.
pub fn a_redo_while_a_save_runs()
    ensures legal { is_legal fresh (past redone_while_saving) ≡ true }
    ensures first { answer 3 (save_steps None (own 0 (past redone_while_saving))) ≡ Some (Saved 2) }
    ensures second { answer 6 (save_steps None (own 0 (past redone_while_saving))) ≡ Some (Saved 4) }
    ensures clean { dirty None (own 0 (past redone_while_saving)) ≡ false }
    ensures dirty_between { dirty None (own 0 (past (take 8 redone_while_saving))) ≡ true }
{}
