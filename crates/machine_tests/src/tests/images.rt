//! Images that fork, and bytes that are put into them.

use bop_bits::ByteMask;
use page_image::Image;
use std::test::Fail;

#[test]
fn a_fork_and_its_image_part(rt: HostRuntime) -> Result<(), Fail> {
    let alloc = rt.alloc();
    let mut image = Image::open(alloc, &[1, 2, 3, 4]).ok().ok_or("no memory")?;
    let mut fork = image.fork().ok().ok_or("no memory")?;
    assert!(rt; image.is_owned() && !fork.is_owned());
    assert_eq!(rt; fork.load(0x10_0000, 4), 0x0403_0201);
    assert!(rt; image.store(0x10_0000, 1, 9).is_ok());
    assert!(rt; fork.store(0x10_0003, 1, 8).is_ok());
    assert_eq!(rt; image.load(0x10_0000, 4), 0x0403_0209);
    assert_eq!(rt; fork.load(0x10_0000, 4), 0x0803_0201);
    Ok(())
}

/// The first and the last byte of page 1 come from page 0 of another image.
#[test]
fn bytes_of_a_page_are_put(rt: HostRuntime) -> Result<(), Fail> {
    let alloc = rt.alloc();
    let mut from = Image::open(alloc, &[1, 2]).ok().ok_or("no memory")?;
    assert!(rt; from.store(0x10_0fff, 1, 3).is_ok());
    let mut image = Image::open(alloc, &[]).ok().ok_or("no memory")?;
    let mut which = ByteMask::new();
    which.set(0);
    which.set(4095);
    if image.is_owned() {
        image.put_bytes(1, from.page(0), &which);
    }
    let page = image.page(1);
    assert_eq!(rt; (page[0], page[1], page[4094], page[4095]), (1, 0, 0, 3));
    assert_eq!(rt; image.load(0x10_0ffc, 4), 0);
    assert_eq!(rt; image.load(0x10_2000, 4), 0);
    Ok(())
}
