// Other kinds of flash, and one that is off.
use crate::lent::numbered;
use flash::{Flash, Fuse, ImageFlash, JoinedFlash, PAGE_BYTES};
use images::{plain, write};
use listing::{LISTING_BYTES, list, put_answer};

#[test]
fn two_images_list_as_one(rt: HostRuntime) {
    let mut left = [0xff; 8192];
    let mut right = [0xff; 8192];
    let mut first = ImageFlash::new(&mut left, Fuse::Intact);
    assert!(rt; write(&mut first, &plain()).is_ok());
    let second = ImageFlash::new(&mut right, Fuse::Intact);
    let mut text = [0; LISTING_BYTES];
    let end = put_answer(&JoinedFlash::new(first, second), &mut text);
    assert!(rt; &text[0..end] == b"d 0 /cal\nf 3 /cal/arc\n".as_slice());
}

#[test]
fn a_chip_that_is_off_is_refused(rt: HostRuntime) {
    let mut image = [0xff; 16384];
    let fuse = Fuse::Set {
        before: 0,
        leading: 0,
    };
    let mut flash = ImageFlash::new(&mut image, fuse);
    assert!(rt; flash.erase(0).is_err());
    let mut work = [7; PAGE_BYTES];
    let mut buffer = [7; LISTING_BYTES];
    assert_eq!(rt; numbered(list(&flash, &mut work, &mut buffer)), Err(10));
    assert!(rt; work == [0xff; PAGE_BYTES]);
    assert!(rt; buffer == [7; LISTING_BYTES]);
}
