//! The opening of a vault, with which a life begins.

ghost use Rattle.std.specs.Prelude.{◌≡◌, ◌≤◌, [], IsTrue, Err, false, true, length, IfOk, IsErrOf};
ghost use Rattle.hx_events.specs.Places.{IsDistinct};
ghost use Rattle.hx_rules.specs.Legal.{with_restored};
ghost use Rattle.hx_opening_laws.specs.Findings.{AreFindings};
ghost use Rattle.hx_opening_laws.specs.FirstPairs.{first_pairs};
ghost use Rattle.hx_opening_laws.specs.Held.{held_first};
ghost use Rattle.hx_opening_laws.specs.Names.{AreResources};
ghost use Rattle.hx_opening_laws.specs.Opening.{IsVaultOpened};
ghost use Rattle.hx_lives.specs.Calls.{Begins, HandsBack, HasGoneOn};
ghost use Rattle.hx_lives.specs.Chained.{OnlySyncs};
ghost use Rattle.hx_faults.specs.Faults.{Rose};

use crate::life::OpenLife;
use crate::parts::Parts;
use crate::registry::Registry;
use hx_core::Core;
use hx_disk::{Disk, FileNo};
use hx_events::{Items, Names, PairFound, PairNo, ResNo};
use hx_restore::{pair_with, restored};
use hx_vault::{ScanError, Vault, barrier, scan};
use std::alloc::{AllocError, Global};

/// Why no life began. The disk is handed back: done or failed, an opening does nothing but sync and read.
pub enum BeginError<D> {
    /// The disk failed, while a slot file was synced or read.
    OpenFault(D),

    NoMemory(D),
}

impl<D: Disk> Registry<D> {
    /// Begins a plain life on the disk: what the vault holds is restored, also of resources that aren't among these names,
    /// which then stand behind them.
    pub fn begin(alloc: Global, disk: D, names: &Names) -> Result<Registry<D>, BeginError<D>>
        requires few { length names.now ≤ 192 }
        requires resources { AreResources names.now }
        ensures begins { IfOk result (λ r. Begins D.time D.failures false names.now disk r) }
        ensures runs { IfOk result (λ r. HasGoneOn D.time D.past D.failures disk r.disk) }
        ensures syncs { IsTrue D.tells → IfOk result (λ r. OnlySyncs (D.past r.disk) (D.time disk) (D.time r.disk)) }
        ensures open_fault { (back : D) → result ≡ Err (BeginError.OpenFault back) → HandsBack D.tells D.time D.past D.failures disk back }
        ensures no_memory { (back : D) → result ≡ Err (BeginError.NoMemory back) → HandsBack D.tells D.time D.past D.failures disk back }
        ensures cause { (back : D) → result ≡ Err (BeginError.OpenFault back) → Rose (D.failures disk) (D.failures back) }
    {
        begun(alloc, disk, names, false)
    }

    /// Begins a guarded life, where a save's write waits for a backup of its version.
    pub fn begin_guarded(
        alloc: Global,
        disk: D,
        names: &Names,
    ) -> Result<Registry<D>, BeginError<D>>
        requires few { length names.now ≤ 192 }
        requires resources { AreResources names.now }
        ensures begins { IfOk result (λ r. Begins D.time D.failures true names.now disk r) }
        ensures runs { IfOk result (λ r. HasGoneOn D.time D.past D.failures disk r.disk) }
        ensures syncs { IsTrue D.tells → IfOk result (λ r. OnlySyncs (D.past r.disk) (D.time disk) (D.time r.disk)) }
        ensures open_fault { (back : D) → result ≡ Err (BeginError.OpenFault back) → HandsBack D.tells D.time D.past D.failures disk back }
        ensures no_memory { (back : D) → result ≡ Err (BeginError.NoMemory back) → HandsBack D.tells D.time D.past D.failures disk back }
        ensures cause { (back : D) → result ≡ Err (BeginError.OpenFault back) → Rose (D.failures disk) (D.failures back) }
    {
        begun(alloc, disk, names, true)
    }
}

fn begun<D: Disk>(
    alloc: Global,
    disk: D,
    names: &Names,
    guarded: bool,
) -> Result<Registry<D>, BeginError<D>>
    requires few { length names.now ≤ 192 }
    requires resources { AreResources names.now }
    ensures begins { IfOk result (λ r. Begins D.time D.failures guarded names.now disk r) }
    ensures runs { IfOk result (λ r. HasGoneOn D.time D.past D.failures disk r.disk) }
    ensures syncs { IsTrue D.tells → IfOk result (λ r. OnlySyncs (D.past r.disk) (D.time disk) (D.time r.disk)) }
    ensures open_fault { (back : D) → result ≡ Err (BeginError.OpenFault back) → HandsBack D.tells D.time D.past D.failures disk back }
    ensures no_memory { (back : D) → result ≡ Err (BeginError.NoMemory back) → HandsBack D.tells D.time D.past D.failures disk back }
    ensures cause { (back : D) → result ≡ Err (BeginError.OpenFault back) → Rose (D.failures disk) (D.failures back) }
{
    let mut disk = disk;
    let (vault, found) = match open_vault(alloc, &mut disk) {
        Ok(opened) => opened,
        Err(ScanError::OpenFault) => return Err(BeginError::OpenFault(disk)),
        Err(ScanError::NoMemory) => return Err(BeginError::NoMemory(disk)),
    };
    match first_life(alloc, &disk, names, found, guarded) {
        Ok((life, held)) => {
            let parts = Parts {
                alloc,
                disk,
                vault,
                life,
                held,
            };
            Ok(Registry::of(parts))
        }
        Err(_) => Err(BeginError::NoMemory(disk)),
    }
}

// Syncs and reads the slot files, and takes over what was found in them.
fn open_vault<D: Disk>(alloc: Global, disk: &mut D) -> Result<(Vault, Vec<PairFound>), ScanError>
    ensures quiet { HandsBack D.tells D.time D.past D.failures disk.old disk.new }
    ensures opened { IfOk result (λ r. IsVaultOpened D.tells D.now r.0 r.1.items disk.new) }
    ensures fault { IsErrOf result ScanError.OpenFault → Rose (D.failures disk.old) (D.failures disk.new) }
{
    disk.reserve(FileNo::new(0), 0, 128)?;
    barrier(disk)?;
    let (mut vault, raws) = scan(alloc, disk)?;
    let found = restored(alloc, &raws)?;
    vault.adopt(&found);
    Ok((vault, found))
}

// A life with no entries, over what was found, and the pair that each of its resources has.
fn first_life<D: Disk>(
    alloc: Global,
    disk: &D,
    names: &Names,
    found: Vec<PairFound>,
    guarded: bool,
) -> Result<(OpenLife, Vec<Option<PairNo>>), AllocError>
    requires few { length names.now ≤ 192 }
    requires resources { AreResources names.now }
    requires findings { AreFindings found.items }
    ensures course { IfOk result (λ r. r.0.course ≡ record { names = with_restored names.now found.items; base = found.items; guarded = guarded; moment = D.time disk.now; faults = D.failures disk.now; entries = [] }) }
    ensures distinct { IfOk result (λ r. IsDistinct r.0.course.names) }
    ensures held { IfOk result (λ r. r.1.items ≡ held_first r.0.course) }
{
    let core = Core::new(alloc, copied(alloc, names)?, &found, guarded)?;
    let held = first_pairs(alloc, core.names(), &found)?;
    let life = OpenLife::new(
        core,
        Items::new(found),
        disk.moment(),
        disk.faults(),
        guarded,
    );
    Ok((life, held))
}

// The same names once more.
fn copied(alloc: Global, names: &Names) -> Result<Names, AllocError>
    ensures { IfOk result (λ copy. copy ≡ names.now) }
{
    let mut copy = Names::new(alloc);
    for place in 0..names.len() {
        let text = names.text(ResNo::new(place as u32)).to_vec(alloc)?;
        copy.add(text).map_err(|_| AllocError)?;
    }
    Ok(copy)
}

// The pair in which the backup of each of the names was found.
fn first_pairs(
    alloc: Global,
    names: &Names,
    found: &[PairFound],
) -> Result<Vec<Option<PairNo>>, AllocError>
    requires { length found.now ≤ 64 }
    ensures { IfOk result (λ held. held.items ≡ first_pairs names.now found.now) }
{
    let mut held = Vec::with_capacity(alloc, names.len())?;
    for place in 0..names.len() {
        held.push(pair_with(found, names.text(ResNo::new(place as u32))))?;
    }
    Ok(held)
}
