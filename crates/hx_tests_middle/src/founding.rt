//! A hub over a life of two resources that has just begun.

ghost use Rattle.std.specs.Prelude.{◌≡◌, ◌<◌, ◌≤◌, ◌+◌, [], length, IfOk};
ghost use Rattle.hx_opening_laws.specs.Names.{AreResources};

use hx_events::{Ended, Names, is_resource};
use hx_hub::Founded;
use hx_memdisk::{MemDisk, Plan};
use hx_registry::{BeginError, Registry};
use std::alloc::{AllocError, Global};
use std::process::Abort;
use std::test::Fail;

fn with_name(alloc: Global, names: Names, text: &str) -> Result<Names, Fail>
    requires few { length names < 100 }
    requires resources { AreResources names }
    ensures few { IfOk result (λ more. length more ≤ length names + 1) }
    ensures resources { IfOk result (λ more. AreResources more) }
{
    let mut names = names;
    let text = text.as_bytes().to_vec(alloc)?;
    if !is_resource(&text) || names.find(&text).is_some() {
        return Err(Fail::new("this is no new resource"));
    }
    match names.add(text) {
        Ok(_) => Ok(names),
        Err(_) => Err(AllocError.into()),
    }
}

fn begun(alloc: Global) -> Result<Registry<MemDisk>, Fail>
    ensures { IfOk result (λ r. r.course.entries ≡ []) }
{
    let plan = Plan {
        fails: Vec::new(alloc),
        fuse: None,
    };
    let disk = MemDisk::new(alloc, plan)?;
    let names = with_name(alloc, Names::new(alloc), "file:///a")?;
    let names = with_name(alloc, names, "file:///b")?;
    match Registry::begin(alloc, disk, &names) {
        Ok(registry) => Ok(registry),
        Err(BeginError::OpenFault(_)) => Err(Fail::new("the vault can't be opened")),
        Err(BeginError::NoMemory(_)) => Err(AllocError.into()),
    }
}

/// A hub with so many windows and parts.
pub(crate) fn founded(
    rt: &impl Abort,
    alloc: Global,
    windows: u32,
    parts: u64,
) -> Result<Founded<MemDisk>, Fail>
    requires { 1 ≤ parts }
    ensures life { IfOk result (λ f. (f.registry.course.entries ≡ []) × (length f.registry.course.names ≡ 2)) }
    ensures counts { IfOk result (λ f. (f.windows ≡ windows) × (f.parts ≡ parts)) }
{
    let registry = begun(alloc)?;
    assert!(rt; registry.names().len() == 2);
    match Founded::new(alloc, registry, windows, parts) {
        Ok(founded) => Ok(founded),
        Err(registry) => {
            let _ = registry.finish(Ended::Cut);
            Err(AllocError.into())
        }
    }
}
