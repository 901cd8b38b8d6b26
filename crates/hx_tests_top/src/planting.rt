ghost use Rattle.std.specs.Prelude.{◌<◌};

use hx_disk::{Disk, FileNo};
use hx_events::Bytes;
use hx_memdisk::{MemDisk, Plan};
use hx_play::{PlantError, plant};
use hx_script::Plant;
use std::alloc::{AllocError, Global};
use std::test::Fail;

fn disk(alloc: Global, fuse: Option<u64>) -> Result<MemDisk, AllocError> {
    let plan = Plan {
        fails: Vec::new(alloc),
        fuse,
    };
    MemDisk::new(alloc, plan)
}

fn slot(alloc: Global, number: u32, bytes: &[u8]) -> Result<Plant, AllocError>
    requires { number < 384 }
{
    Ok(Plant {
        file: FileNo::new(number),
        bytes: Bytes::new(bytes.to_vec(alloc)?),
    })
}

#[test]
fn a_later_slot_of_a_file_writes_again(rt: HostRuntime) -> Result<(), Fail> {
    let alloc = rt.alloc();
    let slots = vec![in alloc;
        slot(alloc, 0, b"longer")?,
        slot(alloc, 5, b"")?,
        slot(alloc, 0, b"new")?,
    ]?;
    let mut whole = disk(alloc, None)?;
    assert!(rt; plant(&mut whole, &slots).is_ok());
    assert_eq!(rt; whole.bytes(FileNo::new(0)), b"new".as_slice());
    assert!(rt; matches!(whole.stat(FileNo::new(5)), Ok(Some(_))));
    let mut torn = disk(alloc, Some(8))?;
    assert!(rt; plant(&mut torn, &slots) == Err(PlantError::DiskFault));
    assert_eq!(rt; torn.faults(), 1);
    Ok(())
}
