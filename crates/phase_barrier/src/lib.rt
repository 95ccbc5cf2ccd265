//! The fork of a phase: one call of a work on each desk, in threads, and the return when all are done.
//!
//! A desk is all that one worker owns in a phase: its devices, its seat at the cursors, its meter and its buffers. What
//! is lent to all workers, such as devices that are read and the table of cursors, is the context. To the room above this
//! crate promises that each desk is what one call of the work on it leaves, that nothing is refused, and that it takes no
//! memory: where a thread cannot be started, the caller does that work itself. It touches nothing but threads.
#![tactic(auto)]

ghost use Rattle.phase_barrier.specs.Desks.{TakesDesk, TakesDesks, LeavesDesk, LeavesDesks};

use std::thread;
use std::thread::Threads;

/// Calls `work` once on each desk with the context, each call in a thread of its own where one can be started, and
/// returns when all calls have returned.
///
/// A context that has references in it is captured by `work`, and `&()` is passed in its place; a test shows it.
pub fn fork_all<R: Threads + Sync, C: Sync, T: Send, F: Fn(&C, &mut T) + Sync>(
    rt: &R,
    context: &C,
    desks: &mut [T],
    work: &F,
)
    requires { TakesDesks F.Fn work.now context.now desks.old }
    ensures { LeavesDesks F.Fn work.now context.now desks.old desks.new }
{
    let count = desks.len();
    if count == 0 {
        return;
    }
    thread::for_each_mut(rt, desks, count, &|_, desk| at_desk(work, context, desk));
}

/// One call at one desk.
fn at_desk<C, T, F: Fn(&C, &mut T)>(work: &F, context: &C, desk: &mut T)
    requires { TakesDesk F.Fn work.now context.now desk.old }
    ensures { LeavesDesk F.Fn work.now context.now desk.old desk.new }
{
    work(context, desk);
}

#[cfg(test)]
mod tests;
