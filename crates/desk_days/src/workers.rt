//! Workers, each with a thread of its own, and the lists that they are kept in.

ghost use Rattle.std.specs.Prelude.{◌≡◌, ◌≤◌, vec_capacity, vec_len, IfOk};

use site_base::NoMemory;
use std::alloc::Global;
use std::thread::{Promise, PromisedHandle, Threads};

/// What a worker promises: nothing, because the desk has what it did.
#[derive(Clone, Copy)]
pub struct Anything;

impl Promise<()> for Anything {
    ghost kept_by = { λ promise end. Unit {0} };
}

/// A worker's thread.
pub type Worker = PromisedHandle<(), Anything>;

/// Returns an empty list with room for this many.
pub fn room_for<T>(alloc: Global, count: usize) -> Result<Vec<T>, NoMemory>
    ensures empty { IfOk result (λ list. vec_len list ≡ 0) }
    ensures room { IfOk result (λ list. count ≤ vec_capacity list) }
{
    Ok(Vec::with_capacity(alloc, count)?)
}

/// Waits for the ends of workers.
pub fn join_all<R: Threads>(rt: &R, workers: Vec<Worker>) {
    for worker in workers {
        worker.join(rt);
    }
}
