// The fuse at every operation of a short script, with few, many and all leading bytes final.
use crate::sizes::BLOCK_BYTES;
use flash::{Flash, FlashFault, Fuse, ImageFlash, PAGE_BYTES, ReadFlash};
use std::cmp::Ordering;
use std::process::Abort;

// Two blocks, and some bytes that make no third.
const BYTES: usize = 2 * BLOCK_BYTES + 100;

const SCRIPT: [Step; 5] = [
    Step::Erase { block: 1 },
    Step::Program {
        page: 16,
        given: 0x3c,
    },
    Step::Program {
        page: 31,
        given: 0xf0,
    },
    Step::Erase { block: 0 },
    Step::Program {
        page: 16,
        given: 0x99,
    },
];

const LEADING: [usize; 5] = [0, 1, PAGE_BYTES - 1, PAGE_BYTES, BLOCK_BYTES];

#[derive(Clone, Copy)]
enum Step {
    Program { page: usize, given: u8 },
    Erase { block: usize },
}

impl Step {
    // The first byte that the step changes, and how many there are.
    fn place(&self) -> (usize, usize) {
        match self {
            Step::Program { page, .. } => (page.saturating_mul(PAGE_BYTES), PAGE_BYTES),
            Step::Erase { block } => (block.saturating_mul(BLOCK_BYTES), BLOCK_BYTES),
        }
    }

    fn applied(&self, old: u8) -> u8 {
        match *self {
            Step::Program { given, .. } => old & given,
            Step::Erase { .. } => 0xff,
        }
    }

    fn run(&self, flash: &mut ImageFlash) -> Result<(), FlashFault> {
        match *self {
            Step::Program { page, given } => flash.program(page, &[given; PAGE_BYTES]),
            Step::Erase { block } => flash.erase(block),
        }
    }

    fn cut(&self) -> FlashFault {
        match *self {
            Step::Program { page, .. } => FlashFault::Program { page },
            Step::Erase { block } => FlashFault::Erase { block },
        }
    }
}

// What the bytes hold once so many leading bytes of the step are final.
fn settle(cells: &mut [u8; BYTES], step: Step, leading: usize) {
    let (at, len) = step.place();
    for cell in cells.iter_mut().skip(at).take(len.min(leading)) {
        *cell = step.applied(*cell);
    }
}

// The script with power going in its step `before`: the steps before it end, those after it are refused.
fn run_cut(rt: &impl Abort, before: usize, leading: usize) {
    let mut bytes = [0xa5; BYTES];
    let mut expected = [0xa5; BYTES];
    let mut flash = ImageFlash::new(&mut bytes, Fuse::Set { before, leading });
    for (k, step) in SCRIPT.iter().enumerate() {
        let answer = step.run(&mut flash);
        match k.cmp(&before) {
            Ordering::Less => {
                settle(&mut expected, *step, BYTES);
                assert_eq!(rt; answer, Ok(()));
            }
            Ordering::Equal => {
                settle(&mut expected, *step, leading);
                assert_eq!(rt; answer, Err(step.cut()));
            }
            Ordering::Greater => assert_eq!(rt; answer, Err(FlashFault::Off)),
        }
    }
    assert!(rt; flash.bytes() == expected.as_slice());
}

#[test]
fn the_fuse_cuts_every_operation(rt: HostRuntime) {
    for before in 0..=SCRIPT.len() {
        for leading in LEADING {
            run_cut(&rt, before, leading);
        }
    }
}

#[test]
fn power_up_goes_on_after_a_cut(rt: HostRuntime) {
    let mut bytes = [0xff; BLOCK_BYTES];
    let mut flash = ImageFlash::new(
        &mut bytes,
        Fuse::Set {
            before: 0,
            leading: 1,
        },
    );
    assert_eq!(rt;
        flash.program(3, &[0x0f; PAGE_BYTES]),
        Err(FlashFault::Program { page: 3 })
    );
    assert_eq!(rt;
        flash.program(16, &[0x0f; PAGE_BYTES]),
        Err(FlashFault::Off),
        "off comes before range"
    );
    flash.power_up();
    assert_eq!(rt;
        flash.program(16, &[0x0f; PAGE_BYTES]),
        Err(FlashFault::Range)
    );
    assert_eq!(rt; flash.program(3, &[0x3c; PAGE_BYTES]), Ok(()));
    let mut page = [0; PAGE_BYTES];
    assert_eq!(rt; flash.read(3, &mut page), Ok(()));
    assert_eq!(rt; page[0], 0x0c);
    assert_eq!(rt; page[1], 0x3c);
}
