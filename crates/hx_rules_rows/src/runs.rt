ghost use Rattle.std.specs.Prelude.{◌≡◌, ℕ, false, true, List, [], ◌∷◌, ◌++◌, None};
ghost use Rattle.hx_events.specs.declared.event.Stage.TheVariants.{Prepare};
ghost use Rattle.hx_events.specs.declared.outcome.Outcome.TheVariants.{StageOk, Idle, Quit, Checked};
ghost use Rattle.hx_rules.specs.Entries.{past};
ghost use Rattle.hx_rules.specs.Legal.{is_legal};
ghost use Rattle.hx_rules.specs.Interleavings.{Interleaves, is_end, all_may_stand};
ghost use Rattle.hx_rules_rows.specs.Story.{fresh, asks_quit};
ghost use Rattle.hx_rules_rows.specs.Runs.{window_script, run_story, left_story, closing_story, closer_vault, closer_flush};

/// A window's commands with the stages that a writer and a saver do between them, and the Closer's question at the end.
pub fn a_window_a_writer_and_a_saver_interleave()
    ensures legal { is_legal fresh (past (run_story ++ asks_quit Quit ∷ [])) ≡ true }
    ensures interleaves { Interleaves fresh false (window_script ∷ []) (past (run_story ++ asks_quit Quit ∷ [])) }
{}

/// The Closer does the stages that are due, saves before backups, and asks once whether the program may end.
pub fn the_closer_finishes_the_work()
    ensures legal { is_legal fresh (past (left_story ++ closing_story)) ≡ true }
    ensures end { is_end fresh (past closing_story) (past left_story) ≡ true }
    ensures no_idle_stage { is_end fresh (past (closer_flush Idle ∷ asks_quit Quit ∷ [])) (past left_story) ≡ false }
    ensures saves_come_first { is_end fresh (past (closer_vault (StageOk Prepare 2) ∷ asks_quit Quit ∷ [])) (past left_story) ≡ false }
    ensures asks_once { is_end fresh (past (asks_quit Quit ∷ asks_quit Quit ∷ [])) (past left_story) ≡ false }
    ensures no_second_question { is_end fresh [] (past (left_story ++ closing_story)) ≡ true }
    ensures not_among_the_others { all_may_stand false (past (closer_flush (Checked None) ∷ [])) ≡ false }
{}
