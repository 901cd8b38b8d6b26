ghost use Rattle.std.specs.Prelude.{◌≡◌, ℕ, false, true, List, [], ◌∷◌, ◌++◌, Option, Some, None, codes, take};
ghost use Rattle.hx_events.specs.declared.outcome.Outcome.TheVariants.{Saved as WasSaved, Unguarded as WasRefused, Idle};
ghost use Rattle.hx_rules.specs.declared.saves.SaveAnswer.TheVariants.{Saved, Unguarded};
ghost use Rattle.hx_rules.specs.Entries.{past, own};
ghost use Rattle.hx_rules.specs.Copies.{dirty};
ghost use Rattle.hx_rules.specs.Saves.{answer, save_steps};
ghost use Rattle.hx_rules.specs.Backups.{done};
ghost use Rattle.hx_rules.specs.Legal.{is_legal};
ghost use Rattle.hx_rules_rows.specs.Story.{fresh, fresh_guarded, stat, flush, IsWrong};
ghost use Rattle.hx_rules_rows.specs.Guards.{checked_first, guarded_story, refused_story};

/// In a guarded life a save's write waits until its own version is backed up. In a plain one it doesn't.
pub fn a_guarded_write_waits_for_its_backup()
    ensures legal { is_legal fresh_guarded (past guarded_story) ≡ true }
    ensures saved { answer 3 (save_steps None (own 0 (past guarded_story))) ≡ Some (Saved 2) }
    ensures not_before_the_backup { IsWrong fresh_guarded checked_first (flush (WasSaved 2 (Some (stat 5000 1)))) }
    ensures not_given_up { IsWrong fresh_guarded checked_first (flush (WasRefused 2)) }
    ensures plain_lives_do_not_wait { IsWrong fresh checked_first (flush Idle) }
{}

/// Where the version can't be backed up, its write is given up, and the ticket says so.
pub fn a_guarded_write_is_refused_without_a_backup()
    ensures legal { is_legal fresh_guarded (past refused_story) ≡ true }
    ensures answer { answer 3 (save_steps None (own 0 (past refused_story))) ≡ Some Unguarded }
    ensures dirty { dirty None (own 0 (past refused_story)) ≡ true }
    ensures no_backup { done None (own 0 (past refused_story)) ≡ None }
    ensures no_waiting { IsWrong fresh_guarded (take 5 refused_story) (flush Idle) }
{}
