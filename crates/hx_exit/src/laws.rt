ghost use Rattle.std.specs.Prelude.{◌≡◌, false, true};
ghost use Rattle.hx_exit.specs.declared.exit.Decision.TheVariants.{Close, Confirm};
ghost use Rattle.hx_exit.specs.declared.exit.Ending.TheVariants.{CloseWindow, Quit};
ghost use Rattle.hx_exit.specs.declared.exit.Setting.TheVariants.{Off, OnExit, OnExitAndWindowClose};
ghost use Rattle.hx_exit.specs.Exits.{decision_by, triggers};
ghost use Rattle.hx_exit.specs.Laws.{ClosesWhereNothingIsLost, ConfirmsTheFirstThatIsLost, TriggersAsTheSettingSays};
ghost use Rattle.hx_exit.specs.Rows.{backed_up, clean, not_backed_up, situation};

/// An exit closes exactly where it is a hot one and each dirty copy is backed up, or no copy is dirty; and where it asks, that is
/// about the first copy whose changes it would lose.
pub fn what_an_exit_keeps()
    ensures triggers { TriggersAsTheSettingSays }
    ensures closes { ClosesWhereNothingIsLost }
    ensures confirms { ConfirmsTheFirstThatIsLost }
{}

/// An exit over a single copy, for settings worked by hand.
pub fn an_exit_over_one_copy()
    ensures window { decision_by (triggers OnExit CloseWindow (situation false false false)) backed_up ≡ Confirm 0 }
    ensures last_window { decision_by (triggers OnExit CloseWindow (situation true false false)) backed_up ≡ Close }
    ensures last_on_a_mac { decision_by (triggers OnExit CloseWindow (situation true false true)) backed_up ≡ Confirm 0 }
    ensures with_a_folder { decision_by (triggers OnExitAndWindowClose CloseWindow (situation false true false)) backed_up ≡ Close }
    ensures off { decision_by (triggers Off Quit (situation false false false)) backed_up ≡ Confirm 0 }
    ensures without_a_backup { decision_by (triggers OnExit Quit (situation false false false)) not_backed_up ≡ Confirm 0 }
    ensures clean { decision_by (triggers Off Quit (situation false false false)) clean ≡ Close }
{}
