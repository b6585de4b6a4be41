//! Waves at several numbers of workers.
use crate::pieces::{next_of, numbers};
use build_base::open_gate::OpenGate;
use build_base::text::WantOfMemory;
use std::test::Fail;
use wave_pool::run_wave;

#[test]
fn results_stand_in_order(rt: HostRuntime) -> Result<(), Fail> {
    for (workers, pieces) in [(1, 3), (2, 0), (2, 1), (2, 5), (3, 7), (64, 100)] {
        assert!(rt; workers >= 1 && workers <= 64);
        let items = numbers(rt.alloc(), pieces)?;
        let work = |piece: u64| -> Result<u64, WantOfMemory> { next_of(piece, 100) };
        let results = run_wave(&rt, rt.alloc(), items, workers, &OpenGate, 0, &work)?;
        let wanted = numbers(rt.alloc(), pieces.saturating_add(1))?;
        assert_eq!(rt;
            results.as_slice(),
            wanted.get(1..).ok_or("short")?,
            "with {workers} workers"
        );
    }
    Ok(())
}

#[test]
fn want_of_memory_in_one_piece_refuses_the_wave(rt: HostRuntime) -> Result<(), Fail> {
    for workers in [1, 2, 4] {
        assert!(rt; workers >= 1 && workers <= 64);
        let items = numbers(rt.alloc(), 5)?;
        let work = |piece: u64| -> Result<u64, WantOfMemory> { next_of(piece, 3) };
        let results = run_wave(&rt, rt.alloc(), items, workers, &OpenGate, 0, &work);
        assert!(rt; results.is_err());
    }
    Ok(())
}
