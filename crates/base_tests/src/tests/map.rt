//! The map of the memory, and the classes of pages.

use bop_bits::{
    CODE_FROM, CODE_WORDS, Class, Classes, DATA_FROM, MEMORY_BYTES, PAGE_BYTES, STACK_FROM,
    STACK_PAGE, STACK_TO,
};

#[test]
fn the_map_has_its_numbers(rt: HostRuntime) {
    let rows: [(&str, usize, usize); 12] = [
        (
            "the first byte of the code",
            CODE_FROM as usize,
            0x0001_0000,
        ),
        (
            "the last byte of the code",
            DATA_FROM as usize - 1,
            0x000F_FFFF,
        ),
        ("the bytes of the code", CODE_WORDS * 4, 983_040),
        (
            "the first byte of the data",
            DATA_FROM as usize,
            0x0010_0000,
        ),
        (
            "the last byte of the data",
            STACK_FROM as usize - 1,
            0x003B_FFFF,
        ),
        (
            "the first byte of the stack",
            STACK_FROM as usize,
            0x003C_0000,
        ),
        (
            "the last byte of the stack",
            STACK_TO as usize - 1,
            0x003F_FFFF,
        ),
        ("the bytes of data and stack", MEMORY_BYTES, 3_145_728),
        ("the bytes of a page", PAGE_BYTES as usize, 4_096),
        ("the pages", MEMORY_BYTES / PAGE_BYTES as usize, 768),
        ("the first page of the stack", STACK_PAGE as usize, 704),
        (
            "the last page of the stack",
            (STACK_TO - 1 - DATA_FROM) as usize / PAGE_BYTES as usize,
            767,
        ),
    ];
    for (name, is, said) in rows {
        assert_eq!(rt; is, said, "{}", name);
    }
}

#[test]
fn pages_have_classes(rt: HostRuntime) {
    let classes = Classes {
        checked_from: 2,
        private_from: 5,
        private_to: 900,
    };
    let rows = [
        (0, Class::Shared),
        (1, Class::Shared),
        (2, Class::Checked),
        (4, Class::Checked),
        (5, Class::Private),
        (703, Class::Private),
        (704, Class::Private),
        (767, Class::Private),
    ];
    for (page, class) in rows {
        assert_eq!(rt; classes.class(page), class);
    }
    let none = Classes {
        checked_from: 1,
        private_from: 1,
        private_to: 1,
    };
    assert_eq!(rt; none.class(1), Class::Shared);
    assert_eq!(rt; none.class(703), Class::Shared);
    assert_eq!(rt; none.class(704), Class::Private);
}
