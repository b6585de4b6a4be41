//! A gate for tests, by which pieces of a wave are seen to run side by side.
#![tactic(auto)]

use build_base::Gate;
use std::sync::atomic::{AtomicU64, Ordering};

/// Holds piece 0 of each wave of two or more until another piece of that wave has entered, or for
/// so many turns.
#[derive(Drop)]
pub struct HeldGate {
    others: AtomicU64,
    met: AtomicU64,
    missed: AtomicU64,
}

impl HeldGate {
    /// No piece has entered.
    pub fn new() -> HeldGate {
        HeldGate {
            others: AtomicU64::new(0),
            met: AtomicU64::new(0),
            missed: AtomicU64::new(0),
        }
    }

    /// In how many waves another piece entered while piece 0 was held.
    pub fn met(&self) -> u64 {
        self.met.load(Ordering::SeqCst)
    }

    /// In how many none did.
    pub fn missed(&self) -> u64 {
        self.missed.load(Ordering::SeqCst)
    }
}

impl Gate for HeldGate {
    fn enter(&self, wave: u64, piece: u64, pieces: u64) {
        if piece > 0 {
            self.others.store(wave.saturating_add(1), Ordering::SeqCst);
            return;
        }
        if pieces < 2 {
            return;
        }
        for _turn in 0..100_000_000 {
            if self.others.load(Ordering::SeqCst) > wave {
                self.met.fetch_add(1, Ordering::SeqCst);
                return;
            }
        }
        self.missed.fetch_add(1, Ordering::SeqCst);
    }
}
