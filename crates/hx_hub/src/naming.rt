//! Which hub it is.

use std::marker::{Brand, PhantomData};

/// Which hub it is. Each call of a program picks it, and contracts alone see it.
pub trait Naming {
    ghost use Rattle.std.specs.Prelude.{ℕ};
    ghost use Rattle.atomic_table.specs.Seated.{TableId};
    ghost use Rattle.hx_lives.specs.Course.{Course};
    ghost use Rattle.hx_hub.specs.Shared.{DiskSoFar};

    ghost table: { TableId };

    /// The life so far when the hub was made.
    ghost life: { Course };

    /// Its disk so far then.
    ghost disk: { DiskSoFar };

    /// How many windows are to leave.
    ghost windows: { ℕ };

    /// How many parts its passes have together.
    ghost parts: { ℕ };
}

/// The hub as its passes know it: by its history alone. No value of it is made.
pub struct Named<J: Naming> {
    of: PhantomData<J>,
}

impl<J: Naming> hx_passes::Naming for Named<J> {
    ghost use Rattle.hx_rules.specs.Entries.{past};
    ghost use Rattle.hx_lives.specs.Course.{start_of};
    ghost use Rattle.hx_hub.specs.Shared.{says_of};

    ghost table = { J.table };

    ghost before = { past J.life.entries };

    ghost parts = { J.parts };

    ghost windows = { J.windows };

    ghost says = { says_of (start_of J.life) };
}

/// A caller's token: whose it is, and what it knows of the hub's history.
pub type Pass<J> = hx_passes::Pass<Named<J>>;

impl Naming for Brand {
    ghost use Rattle.std.specs.Prelude.{[], false, None};

    ghost table = { record { words = 0; slots = 0; views_name = 0; atom = 0; block = 0; offset = 0; slot_names = [] } };

    ghost life = { record { names = []; base = []; guarded = false; moment = 0; faults = 0; entries = [] } };

    ghost disk = { record { moment = 0; past = λ t f. record { reading = []; stat = None; stable = []; written = []; least = 0; greatest = 0 }; failures = 0 } };

    ghost windows = { 0 };

    ghost parts = { 0 };
}
