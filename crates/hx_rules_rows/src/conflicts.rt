ghost use Rattle.std.specs.Prelude.{◌≡◌, ℕ, false, true, List, [], ◌∷◌, ◌++◌, Option, Some, None, codes};
ghost use Rattle.hx_events.specs.declared.outcome.Outcome.TheVariants.{Checked, Modified, Saved as WasSaved};
ghost use Rattle.hx_rules.specs.declared.saves.SaveAnswer.TheVariants.{Saved, ModifiedSince};
ghost use Rattle.hx_rules.specs.Entries.{past, own};
ghost use Rattle.hx_rules.specs.Copies.{dirty, kept};
ghost use Rattle.hx_rules.specs.Saves.{answer, save_steps};
ghost use Rattle.hx_rules.specs.Legal.{is_legal, is_row};
ghost use Rattle.hx_rules_rows.specs.Story.{fresh, stat, flush};
ghost use Rattle.hx_rules_rows.specs.Conflicts.{edited_and_changed, conflict_story, same_size_story};

/// A save whose check finds a newer file of another size writes nothing; the next one, which overwrites, is made.
pub fn a_changed_file_is_a_conflict()
    ensures legal { is_legal fresh (past conflict_story) ≡ true }
    ensures first { answer 5 (save_steps None (own 0 (past conflict_story))) ≡ Some ModifiedSince }
    ensures second { answer 7 (save_steps None (own 0 (past conflict_story))) ≡ Some (Saved 2) }
    ensures clean { dirty None (own 0 (past conflict_story)) ≡ false }
    ensures kept { kept None (own 0 (past conflict_story)) ≡ Some (stat 6000 4) }
{}

/// A newer file of the same size is no conflict, so the save is made.
pub fn a_changed_file_of_the_same_size_is_none()
    ensures legal { is_legal fresh (past same_size_story) ≡ true }
    ensures saved { answer 5 (save_steps None (own 0 (past same_size_story))) ≡ Some (Saved 2) }
    ensures not_a_conflict { is_legal fresh (flush (Modified (stat 9000 3)) ∷ past (edited_and_changed (codes "two"))) ≡ false }
{}
