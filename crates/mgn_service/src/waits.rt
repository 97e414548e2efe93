//! How a call waits for a lock.

use crossbeam_utils::Backoff;
use std::sync::{Mutex, MutexGuard, Wait};

// How often a call looks whether a lock is free before it sleeps: for some 100 microseconds.
const LOOKS: u32 = 32;

/// Takes a lock that is held for some microseconds: that of the book for a step, that of a unit for a command. So a
/// call looks for a while whether it is free: to sleep and be woken takes longer. It looks less and less often, since
/// each look takes the lock's line of memory from the processor of the call that holds it. While a new set comes into
/// force it does sleep.
pub(crate) fn hold<'m, T, R: Wait>(rt: &R, mutex: &'m Mutex<T>) -> MutexGuard<'m, T> {
    let backoff = Backoff::new();
    for _ in 0..LOOKS {
        if let Some(guard) = mutex.try_lock() {
            return guard;
        }
        backoff.spin();
    }
    mutex.lock(rt)
}
