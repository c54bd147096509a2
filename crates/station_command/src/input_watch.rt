//! The thread that waits for the end of standard input, and then ends the day of a station.

use day_base::DayFault;
use mio::Waker;
use std::alloc::Global;
use std::io::{ErrorKind, Read};
use std::sync::Arc;
use std::thread;
use std::thread::{JoinHandle, Threads};

/// How many octets of the input are passed over at once.
const PASSED_OVER: usize = 4_096;

/// A thread that waits for the end of an input.
#[derive(Drop)]
pub struct InputWatch {
    thread: JoinHandle<()>,
    /// A wake is lost where its waker is let go before the server has seen it.
    waker: Arc<Waker>,
}

impl InputWatch {
    /// Starts the thread. It wakes the server at the end of this input. `NoWorker` if the thread
    /// can't be started, `NoMemory` if memory runs out.
    pub fn start<T: Threads, I: Read + Send + Drop + 'static>(
        threads: &T,
        alloc: Global,
        waker: Waker,
        input: I,
    ) -> Result<InputWatch, DayFault> {
        let waker = Arc::new(alloc, waker).map_err(|_| DayFault::NoMemory)?;
        let theirs = Arc::try_clone(&waker).map_err(|_| DayFault::NoMemory)?;
        match thread::spawn(threads, move || wake_at_end(input, &theirs)) {
            Ok(thread) => Ok(InputWatch { thread, waker }),
            Err(_) => Err(DayFault::NoWorker),
        }
    }

    /// Lets the thread go. If the day ended well, the input has ended, and this first waits for the
    /// thread's end.
    pub fn end<T: Threads>(self, threads: &T, is_well: bool) {
        let InputWatch { thread, waker } = self;
        if is_well {
            thread.join(threads);
        }
        drop(waker);
    }
}

/// Passes over the octets of an input, and wakes once they have ended, or can't be read.
fn wake_at_end<I: Read + Drop>(mut input: I, waker: &Waker) {
    let mut piece = [0; PASSED_OVER];
    for _ in 0..u64::MAX {
        match input.read(&mut piece) {
            Ok(0) => break,
            Ok(_) => {}
            Err(error) if error.kind() == ErrorKind::Interrupted => {}
            Err(_) => break,
        }
    }
    let _ = waker.wake();
}
