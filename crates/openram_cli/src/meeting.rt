//! That the workers of a check run beside each other.

use crate::run::run_gated;
use crate::tests::{BROKEN, REPORT, inputs_with, list_of};
use or_host::{MemSink, MemStore};
use std::sync::atomic::{AtomicU64, Ordering};
use std::test::Fail;
use tile_checker::Gate;

/// How often a worker looks whether the other one has entered.
const TURNS: u64 = 100_000_000;

/// What the gate has seen of a worker: whether it has entered, and whether it met the limit of turns.
#[derive(Drop)]
struct Seen {
    entered: AtomicU64,
    late: AtomicU64,
}

/// Holds worker 0 until worker 1 has entered, and the reverse.
#[derive(Drop)]
struct Meeting {
    first: Seen,
    second: Seen,
}

fn unseen() -> Seen {
    Seen {
        entered: AtomicU64::new(0),
        late: AtomicU64::new(0),
    }
}

/// A worker enters, and waits for the other one.
fn wait_for(own: &Seen, other: &Seen) {
    own.entered.store(1, Ordering::SeqCst);
    for _ in 0..TURNS {
        if other.entered.load(Ordering::SeqCst) == 1 {
            return;
        }
    }
    own.late.store(1, Ordering::SeqCst);
}

impl Gate for Meeting {
    fn enter(&self, worker: u8) {
        if worker == 0 {
            wait_for(&self.first, &self.second);
        } else {
            wait_for(&self.second, &self.first);
        }
    }
}

const TWO_WORKERS: [&str; 5] = ["check", "demo_tech.toml", "demo_tech.gds", "demo_inv", "2"];

#[test]
fn two_workers_meet(rt: HostRuntime) -> Result<(), Fail> {
    let alloc = rt.alloc();
    let words = list_of(alloc, &TWO_WORKERS)?;
    let inputs = inputs_with(alloc, &[BROKEN])?;
    let mut store = MemStore::with(alloc, inputs, Vec::new(alloc));
    let mut out = MemSink::with(alloc, Vec::new(alloc));
    let gate = Meeting {
        first: unseen(),
        second: unseen(),
    };
    let status = run_gated(&rt, alloc, &gate, &words, &mut store, &mut out);
    assert_eq!(rt; status, 1);
    assert_eq!(rt; out.written(), REPORT.as_bytes());
    assert_eq!(rt; gate.first.late.load(Ordering::SeqCst), 0);
    assert_eq!(rt; gate.second.late.load(Ordering::SeqCst), 0);
    Ok(())
}
