//! A device that holds nothing.
use build_base::{Book, Path, Place, Rows, Run, Text};
use doc_types::flash::DevicePlan;
use fd_regions::{Device, device};
use std::alloc::Global;

const SIZE: u64 = 0x100_0000;

fn plan(alloc: Global) -> Option<DevicePlan> {
    let path = Path::new(alloc, b"P.fdf").ok()?;
    let name = Text::of(alloc, b"D").ok()?;
    Some(DevicePlan {
        at: Place { path, line: 1 },
        name,
        base: 0,
        size: SIZE,
        erase: 1,
        regions: Rows::new(alloc),
    })
}

fn is_one_fill(runs: &[Run]) -> bool {
    match runs {
        [Run::Fill { byte, count }] => *byte == 0xFF && *count == SIZE,
        _ => false,
    }
}

// Whether the device is one run, and in how many pieces it is given.
fn shape_of(alloc: Global, plan: &DevicePlan) -> Option<(bool, u64)> {
    if !plan.regions.items().is_empty() {
        return None;
    }
    let parts: Rows<Text> = Rows::new(alloc);
    let mut book = Book::new(alloc);
    let permit = book.grant(1_u8).ok()?;
    match device(alloc, permit, plan, &parts) {
        Ok(runs) => {
            let one = is_one_fill(runs.items());
            let image = Device::of_runs(runs);
            let mut pieces: u64 = 0;
            for _piece in image.pieces() {
                pieces = pieces.saturating_add(1);
            }
            Some((one, pieces))
        }
        Err(_) => None,
    }
}

#[test]
fn an_empty_device_is_one_run_given_in_pieces(rt: HostRuntime) {
    let alloc = rt.alloc();
    let plan = plan(alloc).expect(&rt, "memory");
    let (one, pieces) = shape_of(alloc, &plan).expect(&rt, "memory");
    assert!(rt; one);
    assert_eq!(rt; pieces, 256);
}
