//! The workers of a round at once: a gate holds each of two until the other has come.

use crossbeam_queue::ArrayQueue;
use km_edge::{MemSink, MemSource};
use km_live_engine::{Gate, Status, run_live};
use std::alloc::{AllocError, Global};
use std::process::Abort;
use std::sync::Wait;
use std::thread;
use std::thread::Threads;

/// How often a worker looks whether the other has come, before it gives up.
const PATIENCE: u64 = 50_000_000;

/// The numbers of the scanner and of the first mutator.
const SCANNER: u32 = 1;

const MUTATOR: u32 = 2;

const SCRIPT: &[u8] = b"memory 4096
section data 16
task a
task b
kmalloc 64
kmalloc 64
store data 0xffff888000004000
tick 1000
thread a
store data+8 1
load a.r0 data+8
store data+16 2
end
thread b
store data+24 3
store data+32 4
end
round 2 0 100000
print a.r0
";

const REPORT: &[u8] = b"kmalloc 0xffff888000004000
kmalloc 0xffff888000004040
kmemleak: 1 new suspected memory leaks (see /sys/kernel/debug/kmemleak)
0x0000000000000001
";

/// What has happened is one value in a queue.
#[derive(Drop)]
pub struct Meeting<'a, R> {
    rt: &'a R,
    scanner_came: ArrayQueue<bool>,
    mutator_came: ArrayQueue<bool>,
    mutator_went: ArrayQueue<bool>,
    missed: ArrayQueue<bool>,
}

impl<'a, R: Wait> Meeting<'a, R> {
    fn new(rt: &'a R, alloc: Global) -> Result<Meeting<'a, R>, AllocError> {
        Ok(Meeting {
            rt,
            scanner_came: ArrayQueue::new(alloc, 1)?,
            mutator_came: ArrayQueue::new(alloc, 1)?,
            mutator_went: ArrayQueue::new(alloc, 1)?,
            missed: ArrayQueue::new(alloc, 1)?,
        })
    }

    fn tell(&self, event: &ArrayQueue<bool>) {
        let _ = event.push(self.rt, true);
    }

    /// Waits until something has happened, and notes it where that takes too long.
    fn await_event(&self, event: &ArrayQueue<bool>) {
        for _ in 0..PATIENCE {
            if !event.is_empty() {
                return;
            }
            thread::yield_now();
        }
        self.tell(&self.missed);
    }
}

impl<'a, R: Wait> Gate for Meeting<'a, R> {
    fn before(&self, who: u32, call: u32) {
        if who == SCANNER && call == 1 {
            self.tell(&self.scanner_came);
            self.await_event(&self.mutator_came);
        }
        if who == MUTATOR && call == 1 {
            self.tell(&self.mutator_came);
            self.await_event(&self.scanner_came);
        }
        if who == SCANNER && call == 4 {
            self.await_event(&self.mutator_went);
        }
    }

    fn after(&self, who: u32, call: u32) {
        if who == MUTATOR && call == 1 {
            self.tell(&self.mutator_went);
        }
    }
}

/// The scanner and the first mutator wait for one another, which one thread alone couldn't. What is written is the same.
fn met<R: Threads + Wait + Abort + Sync>(rt: &R, alloc: Global) -> Result<(), AllocError> {
    let script = Vec::from_slice(alloc, SCRIPT)?;
    let mut source = MemSource::new(script, 4096, Vec::new(alloc));
    let Ok(mut sink) = MemSink::new(alloc, 4096, 4096, Vec::new(alloc)) else {
        return Err(AllocError);
    };
    let gate = Meeting::new(rt, alloc)?;
    let words: [String; 0] = [];
    let status = run_live(rt, alloc, words.as_slice(), &mut source, &mut sink, &gate);
    assert!(rt; matches!(status, Status::Ok), "it ran");
    assert!(rt; sink.bytes() == REPORT, "its report");
    assert!(rt; gate.missed.is_empty(), "both were there at once");
    Ok(())
}

#[test]
fn workers_of_a_round_run_at_once(rt: HostRuntime) {
    let alloc: Global = rt.alloc();
    assert!(rt; met(&rt, alloc).is_ok(), "memory");
}
