// The working page and the buffer.
use flash::{DumpFlash, Fuse, ImageFlash, PAGE_BYTES};
use images::{plain, write};
use listing::{LISTING_BYTES, list};
use replay::ReplayFault;

const IMAGE_BYTES: usize = 16384;

// What was answered, a refusal by its number.
pub(crate) fn numbered(answer: Result<usize, ReplayFault>) -> Result<usize, u8> {
    answer.map_err(|fault| fault.number())
}

#[test]
fn a_short_working_page_is_refused_first(rt: HostRuntime) {
    let mut work = [7; 255];
    let mut buffer = [7; 1];
    let answer = list(&DumpFlash::new(&[]), &mut work, &mut buffer);
    assert_eq!(rt; numbered(answer), Err(1));
    assert!(rt; work == [7; 255]);
    assert!(rt; buffer == [7; 1]);
}

#[test]
fn a_short_buffer_is_refused_next(rt: HostRuntime) {
    let mut work = [7; PAGE_BYTES];
    let mut buffer = [7; 12479];
    let answer = list(&DumpFlash::new(&[]), &mut work, &mut buffer);
    assert_eq!(rt; numbered(answer), Err(5));
    assert!(rt; work == [0xff; PAGE_BYTES]);
    assert!(rt; buffer == [7; 12479]);
}

#[test]
fn lines_fill_the_buffer_from_its_start(rt: HostRuntime) {
    let mut image = [0xff; IMAGE_BYTES];
    let mut flash = ImageFlash::new(&mut image, Fuse::Intact);
    assert!(rt; write(&mut flash, &plain()).is_ok());
    let mut work = [7; PAGE_BYTES];
    let mut buffer = [7; LISTING_BYTES];
    let answer = list(&DumpFlash::new(flash.bytes()), &mut work, &mut buffer);
    assert!(rt; answer.is_ok());
    assert!(rt; work == [0xff; PAGE_BYTES]);
    assert!(rt; &buffer[0..22] == b"d 0 /cal\nf 3 /cal/arc\n".as_slice());
    assert!(rt; &buffer[22..LISTING_BYTES] == [7; 12458].as_slice());
}
