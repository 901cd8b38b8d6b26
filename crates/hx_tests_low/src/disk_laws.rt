use hx_disk::{Disk, FileNo};
use hx_disk_laws::{crash, image_laws, left_laws, run_laws, shut, shut_both};
use hx_ghost::GhostList;
use hx_memdisk::{MemDisk, Plan};
use std::test::Fail;

#[test]
fn two_files_are_shut_and_a_crash_keeps_them(rt: HostRuntime) -> Result<(), Fail> {
    let alloc = rt.alloc();
    let plan = Plan {
        fails: Vec::new(alloc),
        fuse: None,
    };
    let mut disk = MemDisk::new(alloc, plan)?;
    image_laws();
    left_laws();
    run_laws(&disk);
    assert!(rt; shut_both(&mut disk, FileNo::new(3), FileNo::new(4)).is_ok());
    disk.reserve(FileNo::new(5), 1, 2)?;
    assert!(rt; shut(&mut disk, FileNo::new(5)).is_ok());
    crash(&mut disk, 0)?;
    assert!(rt; disk.bytes(FileNo::new(4)) == b"\0".as_slice());
    assert!(rt; disk.bytes(FileNo::new(5)) == b"\0".as_slice());

    let mut bytes = GhostList::<u8>::new();
    bytes.extend(&b"abc".as_slice());
    assert!(rt; size_of_val(&bytes) == 0);
    Ok(())
}
