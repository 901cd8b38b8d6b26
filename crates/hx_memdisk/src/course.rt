ghost use Rattle.std.specs.Prelude.{true, false, ◌≡◌, ◌≤◌, ◌↔◌, ◌+◌, ◌-◌, ◌*◌, ◌^◌, min, Bool, IsTrue, if◌then◌else◌};
ghost use Rattle.hx_faults.specs.Faults.{Rose};
ghost use Rattle.hx_memdisk.specs.Plan.{Fails};

use hx_faults::raised;

/// Which device calls of a disk fail. The calls are numbered from 1 since the disk was made or last crashed.
#[derive(Drop)]
pub struct Plan {
    /// The numbers of calls that fail.
    pub fails: Vec<u64>,

    /// The number behind which every call fails.
    pub fuse: Option<u64>,
}

/// The plan, and what has been counted.
#[derive(Drop)]
pub struct Course {
    pub plan: Plan,

    /// The device calls since the disk was made or last crashed.
    pub calls: u64,

    /// The writes and cuts that succeeded, of all files.
    pub writes: u64,

    /// The calls that failed.
    pub faults: u64,
}

impl Plan {
    /// Whether the call of this number succeeds.
    fn allows(&self, call: u64) -> bool
        ensures { (result ≡ false) ↔ Fails self.now.fails.items self.now.fuse call }
    {
        if let Some(last) = self.fuse {
            if call > last {
                return false;
            }
        }
        !self.fails.contains(&call)
    }
}

impl Course {
    ghost use Rattle.hx_memdisk.specs.Course.{FailsNext, StartsAnew, called, one_more, next_mtime};

    /// Counts a device call, and says whether it succeeds.
    pub fn call(&mut self) -> bool
        ensures planned { (result ≡ false) ↔ FailsNext self.old }
        ensures counted { self.new ≡ called result self.old }
        ensures later { self.old.faults ≤ self.new.faults }
        ensures rose { result ≡ false → Rose self.old.faults self.new.faults }
        ensures kept { result ≡ true → self.new.faults ≡ self.old.faults }
    {
        self.calls = self.calls.saturating_add(1);
        let ok = self.plan.allows(self.calls);
        if !ok {
            self.faults = raised(self.faults);
        }
        ok
    }

    /// Counts a write or a cut that succeeded.
    pub fn count_write(&mut self)
        ensures { self.new ≡ record self.old { writes = one_more self.old.writes } }
    {
        self.writes = self.writes.saturating_add(1);
    }

    /// The modification time that the next write or cut sets.
    pub fn next_mtime(&self) -> u64
        ensures { result ≡ next_mtime self.now }
    {
        self.writes.saturating_add(1).saturating_mul(1000)
    }

    /// Forgets the plan and numbers the calls anew, as a crash does.
    pub fn start_anew(&mut self)
        ensures { StartsAnew self.old self.new }
    {
        self.plan.fails.clear();
        self.plan.fuse = None;
        self.calls = 0;
    }
}
