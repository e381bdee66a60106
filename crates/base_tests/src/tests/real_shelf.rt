//! A shelf of real files.

use bop_ends::{LoadFault, RealShelf, Shelf};
use std::fs;
use std::rt::Files;
use std::test::Fail;

/// Removes the file and the folder of the test, where an earlier run has left them or this one
/// has made them.
fn clear<F: Files>(rt: &F) {
    let _ = fs::remove_file(rt, "a.c");
    let _ = fs::remove_dir(rt, "folder");
}

#[test]
fn a_shelf_of_real_files_loads_the_front_of_a_file(rt: HostRuntime) -> Result<(), Fail> {
    let alloc = rt.alloc();
    clear(&rt);
    fs::write(&rt, "a.c", "abcdef")?;
    fs::create_dir(&rt, "folder")?;
    let mut shelf = RealShelf::new(&rt);
    let failed = Err(LoadFault::Failed);
    let wants: [(&str, usize, Result<&[u8], LoadFault>); 6] = [
        ("a.c", 4, Ok(b"abcd")),
        ("a.c", 6, Ok(b"abcdef")),
        ("a.c", usize::MAX, Ok(b"abcdef")),
        ("a.c", 0, Ok(b"")),
        ("b.c", 4, failed),
        ("folder", 4, failed),
    ];
    for (name, most, want) in wants {
        let loaded = shelf.load(alloc, name, most);
        let front = match &loaded {
            Ok(bytes) => Ok(bytes.as_slice()),
            Err(fault) => Err(*fault),
        };
        assert_eq!(rt; front, want, "{name} up to {most}");
    }
    clear(&rt);
    Ok(())
}
