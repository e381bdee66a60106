//! A shelf in memory.

use bop_ends::{LoadFault, MemShelf, Shelf};
use std::collections::BTreeMap;
use std::test::Fail;

#[test]
fn a_shelf_in_memory_fails_as_planned(rt: HostRuntime) -> Result<(), Fail> {
    let alloc = rt.alloc();
    let mut files = BTreeMap::new(alloc);
    files.insert(String::from_str(alloc, "a.c")?, b"abcdef".to_vec(alloc)?)?;
    let mut shelf = MemShelf::new(alloc, files, vec![in alloc; 1, 4]?);
    let failed = Err(LoadFault::Failed);
    let wants: [(&str, usize, Result<&[u8], LoadFault>); 6] = [
        ("a.c", 4, Ok(b"abcd")),
        ("a.c", 4, failed),
        ("b.c", 4, failed),
        ("a.c", 9, Ok(b"abcdef")),
        ("a.c", 9, failed),
        ("a.c", 0, Ok(b"")),
    ];
    for (call, (name, most, want)) in wants.iter().enumerate() {
        let loaded = shelf.load(alloc, name, *most);
        let front = match &loaded {
            Ok(bytes) => Ok(bytes.as_slice()),
            Err(fault) => Err(*fault),
        };
        assert_eq!(rt; front, *want, "load {call}");
    }
    assert_eq!(rt; shelf.file("a.c"), Some(b"abcdef".as_slice()));
    assert_eq!(rt; shelf.file("b.c"), None);
    Ok(())
}
