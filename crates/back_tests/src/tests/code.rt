//! The program of a text.

use low_link::compile;
use std::test::Fail;

const TEXT: &[u8] = b"int a; BOP_CHECKED char c=7; BOP_PRIVATE int p[2]={1,258};
int main(void){BeginPPR(9); a=1; EndPPR(9); return 0;}";

/// Each section has a page here: the data are three pages, with the first values of the globals.
#[test]
fn a_program_has_its_data_and_classes(rt: HostRuntime) -> Result<(), Fail> {
    let program = compile(rt.alloc(), TEXT).ok().ok_or("no program")?;
    let bytes = program.bytes.get();
    assert_eq!(rt; program.entry, 0x0001_0000);
    assert_eq!(rt; program.classes.checked_from, 1);
    assert_eq!(rt; program.classes.private_from, 2);
    assert_eq!(rt; program.classes.private_to, 3);
    assert_eq!(rt; bytes.len(), 3 * 4096);
    for (at, byte) in bytes.iter().enumerate() {
        let wanted = match at {
            4096 => 7,
            8192 | 8197 => 1,
            8196 => 2,
            _ => 0,
        };
        assert_eq!(rt; *byte, wanted, "{at}");
    }
    Ok(())
}

/// A region ends right behind the ECALL of its EndPPR, and a number without a region is at 0.
#[test]
fn a_program_knows_where_its_regions_end(rt: HostRuntime) -> Result<(), Fail> {
    let program = compile(rt.alloc(), TEXT).ok().ok_or("no program")?;
    let code = program.code.get();
    for (number, end) in program.ends.iter().enumerate() {
        if number == 9 {
            let last = (*end as usize).saturating_sub(0x0001_0004) / 4;
            assert_eq!(rt; code.get(last).copied(), Some(0x0000_0073));
        } else {
            assert_eq!(rt; *end, 0, "{number}");
        }
    }
    Ok(())
}
