// The joined flash and the dump.
use crate::sizes::BLOCK_BYTES;
use flash::{DumpFlash, Flash, FlashFault, Fuse, ImageFlash, JoinedFlash, PAGE_BYTES, ReadFlash};
use std::test::Fail;

#[test]
fn two_images_read_as_one(rt: HostRuntime) {
    let mut left = [0xff; BLOCK_BYTES];
    let mut right = [0xff; 2 * BLOCK_BYTES];
    let first = ImageFlash::new(&mut left, Fuse::Intact);
    let second = ImageFlash::new(
        &mut right,
        Fuse::Set {
            before: 1,
            leading: 0,
        },
    );
    let mut both = JoinedFlash::new(first, second);
    assert_eq!(rt; both.blocks(), 3);
    assert_eq!(rt; both.program(17, &[0x11; PAGE_BYTES]), Ok(()));
    let mut page = [0; PAGE_BYTES];
    assert_eq!(rt; both.read(17, &mut page), Ok(()));
    assert_eq!(rt; page[0], 0x11);
    assert_eq!(rt; both.erase(2), Err(FlashFault::Erase { block: 2 }));
    assert!(rt; !both.is_on(), "on only when both are");
    assert_eq!(rt; both.read(0, &mut page), Err(FlashFault::Off));
    both.power_up();
    assert_eq!(rt; both.read(48, &mut page), Err(FlashFault::Range));
    assert_eq!(rt; page[0], 0x11, "a refused read leaves the page");
}

#[test]
fn a_dump_uses_1000_blocks(rt: HostRuntime) -> Result<(), Fail> {
    let bytes = vec![in rt.alloc(); 0x42u8; 4_100_096]?;
    let dump = DumpFlash::new(&bytes);
    assert_eq!(rt; dump.blocks(), 1000);
    let mut page = [0; PAGE_BYTES];
    assert_eq!(rt; dump.read(15_999, &mut page), Ok(()));
    assert_eq!(rt; page[255], 0x42);
    assert_eq!(rt; dump.read(16_000, &mut page), Err(FlashFault::Range));
    Ok(())
}
