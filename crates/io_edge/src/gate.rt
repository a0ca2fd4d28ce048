//! Where a worker may be held up, so that a test can order what several threads do.

use std::sync::atomic::{AtomicBool, Ordering};
use std::thread::yield_now;

/// Where a worker passes a gate.
#[derive(Clone, Copy, Debug, Eq, PartialEq)]
pub enum GatePoint {
    /// Before it applies an update of a supplier, outside the lock.
    BeforeApply,
    /// After a search was answered.
    AfterSearch,
}

/// What a worker passes at each of these points.
pub trait Gate {
    /// Returns when the worker may go on.
    fn pass(&self, point: GatePoint);
}

/// A gate that holds nobody.
#[derive(Clone, Copy, Debug)]
pub struct NoGate;

impl Gate for NoGate {
    fn pass(&self, _point: GatePoint) {}
}

/// A gate that holds each update until a search was answered, or until so many turns are over. In each
/// turn another thread may run.
#[derive(Drop)]
pub struct TestGate {
    turns: u64,
    is_searched: AtomicBool,
    has_run_out: AtomicBool,
}

impl TestGate {
    /// A gate that holds an update for at most so many turns.
    pub fn new(turns: u64) -> TestGate {
        TestGate {
            turns,
            is_searched: AtomicBool::new(false),
            has_run_out: AtomicBool::new(false),
        }
    }

    /// The turns were over for some update before a search was answered.
    pub fn has_run_out(&self) -> bool {
        self.has_run_out.load(Ordering::SeqCst)
    }

    fn hold(&self) {
        for _ in 0..self.turns {
            if self.is_searched.load(Ordering::SeqCst) {
                return;
            }
            yield_now();
        }
        let is_searched = self.is_searched.load(Ordering::SeqCst);
        if !is_searched {
            self.has_run_out.store(true, Ordering::SeqCst);
        }
    }
}

impl Gate for TestGate {
    fn pass(&self, point: GatePoint) {
        match point {
            GatePoint::BeforeApply => self.hold(),
            GatePoint::AfterSearch => self.is_searched.store(true, Ordering::SeqCst),
        }
    }
}
