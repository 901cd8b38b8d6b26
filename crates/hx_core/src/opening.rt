//! What a life begins with.

ghost use Rattle.std.specs.Prelude.{◌≡◌, ◌+◌, ◌<◌, ◌≤◌, ◌∷◌, ◌++◌, [], Some, None, length, count_by, option_map, bytes_eq, IfOk, OnOk};
ghost use Rattle.hx_events.specs.Places.{place_of};
ghost use Rattle.hx_rules.specs.Legal.{found_backup, is_barred, opening_of, with_name, with_restored};
ghost use Rattle.hx_resource.specs.Kept.{kept_at_first};
ghost use Rattle.hx_core.specs.Opens.{AreFirst, ArePlaced, first_of, restored_of};

use crate::machine::Core;
use hx_backups::Backups;
use hx_events::{Backup, Bytes, Names, PairFound, ResNo};
use hx_ghost::{GhostList, Lists};
use hx_resource::Resource;
use hx_tracker::DueIndex;
use std::alloc::{AllocError, Global};

impl Core {
    /// A core with no entries, for a life with these names whose vault was found to hold these pairs. The resources of found
    /// backups that aren't among the names are added behind them, in the order of their pairs. Where the life is `guarded`
    /// a save's write waits for a backup of its version.
    pub fn new(
        alloc: Global,
        names: Names,
        base: &[PairFound],
        guarded: bool,
    ) -> Result<Core, AllocError>
        requires pairs { length base.now ≤ 64 }
        requires few { length (with_restored names base.now) ≤ 256 }
        ensures names { IfOk result (λ core. core.names ≡ with_restored names base.now) }
        ensures opening { IfOk result (λ core. core.opening ≡ opening_of (with_restored names base.now) base.now guarded) }
        ensures first { IfOk result (λ core. core.first ≡ first_of (with_restored names base.now) base.now []) }
        ensures history { IfOk result (λ core. core.history ≡ []) }
        ensures count { IfOk result (λ core. length core.resources ≡ length core.names) }
    {
        let names = add_restored(alloc, names, base)?;
        let mut restored = GhostList::new();
        let resources = first_resources(alloc, &names, base, &mut restored)?;
        let backups = first_backups(alloc, &names, base)?;
        let mut first = GhostList::new();
        first.extend(&Listing(&backups));
        Ok(Core {
            alloc,
            names,
            restored,
            first,
            barred: barred(base),
            guarded,
            resources,
            backups,
            history: Vec::new(alloc),
            spent: false,
            vault: DueIndex::new(),
            save: DueIndex::new(),
        })
    }
}

// The backup that a resource was restored with, as one item of the list that only clauses read.
#[derive(Drop)]
struct One<'a>(Option<&'a Backup>);

impl Lists<Option<Backup>> for One<'_> {
    ghost use Rattle.std.specs.Prelude.{◌∷◌, [], option_map};

    ghost listed = { λ one. option_map (λ b. b.now) one.0 ∷ [] };
}

// The list of completed backups, likewise.
#[derive(Drop)]
struct Listing<'a>(&'a Backups);

impl Lists<(ResNo, u64)> for Listing<'_> {
    ghost listed = { λ listing. listing.0.now.pairs };
}

// The names with the restored resources that aren't among them.
fn add_restored(alloc: Global, names: Names, base: &[PairFound]) -> Result<Names, AllocError>
    requires few { length (with_restored names base.now) ≤ 256 }
    ensures { IfOk result (λ all. all ≡ with_restored names base.now) }
{
    let mut all = names;
    for pair in base {
        if let PairFound::Found(backup, _) = pair {
            add_name(alloc, &mut all, backup.resource.as_slice())?;
        }
    }
    Ok(all)
}

fn add_name(alloc: Global, names: &mut Names, resource: &[u8]) -> Result<(), AllocError>
    requires few { length (with_name resource.now names.old) ≤ 256 }
    ensures { OnOk result (names.new ≡ with_name resource.now names.old) }
{
    if names.find(resource).is_none() {
        names.add(resource.to_vec(alloc)?).map_err(|_| AllocError)?;
    }
    Ok(())
}

// The lowest pair's backup of the resource.
fn found_backup<'a>(resource: &[u8], base: &'a [PairFound]) -> Option<&'a Backup>
    ensures { option_map (λ b. b.now) result ≡ found_backup resource.now base.now }
{
    for pair in base {
        if let PairFound::Found(backup, _) = pair {
            if backup.resource.as_slice() == resource {
                return Some(backup);
            }
        }
    }
    None
}

// What is kept of each resource, with what it was restored with.
fn first_resources(
    alloc: Global,
    names: &Names,
    base: &[PairFound],
    restored: &mut GhostList<Option<Backup>>,
) -> Result<Vec<Resource>, AllocError>
    requires empty { restored.old.items ≡ [] }
    requires few { length names.now ≤ 256 }
    ensures restored { OnOk result (restored.new.items ≡ restored_of names.now base.now) }
    ensures resources { IfOk result (λ resources. AreFirst resources.items restored.new.items) }
    ensures placed { OnOk result (ArePlaced names.now) }
{
    let mut resources = Vec::with_capacity(alloc, names.len())?;
    for i in 0..names.len() {
        let backup = found_backup(names.text(ResNo::new(i as u32)), base);
        restored.extend(&One(backup));
        resources.push(first_resource(alloc, backup)?)?;
    }
    Ok(resources)
}

fn first_resource(alloc: Global, restored: Option<&Backup>) -> Result<Resource, AllocError>
    ensures { IfOk result (λ resource. resource.kept ≡ kept_at_first (option_map (λ b. b.now) restored.entry)) }
{
    match restored {
        None => Ok(Resource::new(alloc)),
        Some(backup) => restored_resource(alloc, backup),
    }
}

fn restored_resource(alloc: Global, backup: &Backup) -> Result<Resource, AllocError>
    ensures { IfOk result (λ resource. resource.kept ≡ kept_at_first (Some backup.now)) }
{
    let content = Bytes::new(backup.content.as_slice().to_vec(alloc)?);
    Ok(Resource::restored(alloc, content, backup.base))
}

// The list of completed backups at the opening.
fn first_backups(alloc: Global, names: &Names, base: &[PairFound]) -> Result<Backups, AllocError>
    ensures { IfOk result (λ backups. backups.pairs ≡ first_of names.now base.now []) }
{
    let mut backups = Backups::new(alloc);
    for pair in base {
        if let PairFound::Found(backup, _) = pair {
            if let Some(res) = names.find(backup.resource.as_slice()) {
                backups.add(res, 1)?;
            }
        }
    }
    Ok(backups)
}

// How many pairs are barred.
fn barred(base: &[PairFound]) -> u64
    requires { length base.now ≤ 64 }
    ensures count { result ≡ count_by is_barred base.now }
    ensures few { result ≤ 64 }
{
    let mut count = 0;
    for pair in base {
        if matches!(pair, PairFound::Damaged | PairFound::Twin(_)) {
            count += 1;
        }
    }
    count
}
