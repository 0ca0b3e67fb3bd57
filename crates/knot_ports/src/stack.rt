//! A call in a thread of its own.
ghost use Rattle.std.specs.Prelude.{IfOk};

use memory_core::OutOfMemory;
use std::alloc::Global;
use std::thread::{Builder, Promise, Threads};

/// How many bytes more than its stack a thread takes, and more: the guard beside the stack, and what the system keeps of the thread.
const BESIDE: usize = 1_048_576;

/// Nothing is proved of a thread's answer.
#[derive(Drop)]
struct Anything;

impl<T> Promise<T> for Anything {
    ghost kept_by = { λ promise answer. Unit {0} };
}

/// Calls a closure in a thread of its own, whose stack has `size` bytes, and waits for its answer. The stack of the first thread grows as
/// it is used, and the system ends the program by a signal where it can't; that of another thread is there from the beginning. Where no
/// thread can be made, though there is memory for it, the closure is called in the calling thread. The only error is that there
/// is no memory for the stack, and then the closure is not called. What a thread answers is not proved.
pub fn on_stack<R: Threads, T: Send + Drop + 'static, F: FnOnce() -> T + Send + Drop + 'static>(
    rt: &R,
    alloc: Global,
    size: usize,
    f: F,
) -> Result<T, OutOfMemory>
    requires { F.pre f }
{
    match Builder::new().stack_size(size).spawn_with(rt, Anything, f) {
        Ok(thread) => Ok(thread.join(rt)),
        Err(refused) => here(alloc, size, refused.value),
    }
}

/// Calls a closure in the calling thread, where there is memory for a thread with a stack of so many bytes. So where memory alone kept the
/// thread from being made, the closure isn't called on a stack that can't grow.
fn here<T, F: FnOnce() -> T + Drop>(alloc: Global, size: usize, f: F) -> Result<T, OutOfMemory>
    requires { F.pre f }
    ensures { IfOk result (λ answer. F.post f answer) }
{
    let room: Vec<u8> = Vec::with_capacity(alloc, size.saturating_add(BESIDE))?;
    drop(room);
    Ok(f())
}
