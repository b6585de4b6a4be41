//! Waves at several numbers of workers, a piece that waits for all others, and a worker by itself.
use crate::pieces::{next_of, numbers};
use build_base::open_gate::OpenGate;
use build_base::outside::Gate;
use build_base::text::WantOfMemory;
use drawn_waves::{PieceStart, draw_wave, piece_table, take_pieces};
use std::sync::atomic::{AtomicU64, Ordering};
use std::test::Fail;

// Holds piece 0 until four others have entered, or for so many turns.
#[derive(Drop)]
struct LongGate {
    others: AtomicU64,
    missed: AtomicU64,
}

impl Gate for LongGate {
    fn enter(&self, _wave: u64, piece: u64, _pieces: u64) {
        if piece > 0 {
            self.others.fetch_add(1, Ordering::SeqCst);
            return;
        }
        for _turn in 0..100_000_000 {
            if self.others.load(Ordering::SeqCst) >= 4 {
                return;
            }
        }
        self.missed.fetch_add(1, Ordering::SeqCst);
    }
}

#[test]
fn results_stand_in_order(rt: HostRuntime) -> Result<(), Fail> {
    for (workers, pieces) in [(1, 3), (2, 0), (2, 1), (2, 5), (3, 7), (64, 100)] {
        assert!(rt; workers >= 1 && workers <= 64);
        let items = numbers(rt.alloc(), pieces)?;
        let work = |piece: u64| -> Result<u64, WantOfMemory> { next_of(piece, 100) };
        let results = draw_wave(&rt, rt.alloc(), items, workers, &OpenGate, 0, &work)?;
        let wanted = numbers(rt.alloc(), pieces.saturating_add(1))?;
        assert_eq!(rt;
            results.as_slice(),
            wanted.get(1..).ok_or("short")?,
            "with {workers} workers"
        );
    }
    Ok(())
}

#[test]
fn one_worker_draws_what_a_long_piece_leaves(rt: HostRuntime) -> Result<(), Fail> {
    let gate = LongGate {
        others: AtomicU64::new(0),
        missed: AtomicU64::new(0),
    };
    let items = numbers(rt.alloc(), 5)?;
    let work = |piece: u64| -> Result<u64, WantOfMemory> { next_of(piece, 100) };
    let results = draw_wave(&rt, rt.alloc(), items, 2, &gate, 0, &work)?;
    assert!(rt; gate.missed.load(Ordering::SeqCst) == 0);
    assert_eq!(rt; results.as_slice(), [1, 2, 3, 4, 5].as_slice());
    Ok(())
}

#[test]
fn a_worker_by_itself_draws_all_in_order(rt: HostRuntime) -> Result<(), Fail> {
    let items = numbers(rt.alloc(), 5)?;
    let pieces = items.len() as u64;
    let PieceStart { table, seat } = piece_table(rt.alloc(), items, 1)?;
    let work = |piece: u64| -> Result<u64, WantOfMemory> { next_of(piece, 100) };
    let taken = take_pieces(rt.alloc(), &table, seat, pieces, &OpenGate, 0, &work);
    let mut drawn = Vec::new(rt.alloc());
    for piece in taken.results?.as_slice() {
        drawn.push(piece.number)?;
    }
    assert_eq!(rt; drawn.as_slice(), [0, 1, 2, 3, 4].as_slice());
    Ok(())
}

#[test]
fn want_of_memory_in_one_piece_refuses_the_wave(rt: HostRuntime) -> Result<(), Fail> {
    for workers in [1, 2, 4] {
        assert!(rt; workers >= 1 && workers <= 64);
        let items = numbers(rt.alloc(), 5)?;
        let work = |piece: u64| -> Result<u64, WantOfMemory> { next_of(piece, 3) };
        let results = draw_wave(&rt, rt.alloc(), items, workers, &OpenGate, 0, &work);
        assert!(rt; results.is_err());
    }
    Ok(())
}
