//! A few different things at once, each in a thread of its own.
ghost use Rattle.std.specs.Prelude.{◌≡◌, IfOk, length};
ghost use Rattle.std.specs.Fork.{AcceptsJobs, GivesJobs};

use std::alloc::{AllocError, Global};
use std::marker::{Send, Sync};
use std::thread::{self, Threads, join, join_mut};

/// What the two closures give. Another thread calls the first, if one can be
/// started, while this one calls the second.
pub fn both<R: Threads, F: FnOnce() -> X + Send, G: FnOnce() -> Y, X: Send, Y>(
    rt: &R,
    first: F,
    second: G,
) -> (X, Y)
    requires { F.pre first × G.pre second }
    ensures first { F.post first result.0 }
    ensures second { G.post second result.1 }
{
    join(rt, first, second)
}

/// The same of two closures that are lent, so that the caller learns what each leaves in what it captures.
pub fn both_mut<R: Threads, F: FnMut() -> X + Send, G: FnMut() -> Y, X: Send, Y>(
    rt: &R,
    first: &mut F,
    second: &mut G,
) -> (X, Y)
    requires { F.pre first.old × G.pre second.old }
    ensures { F.step first.old result.0 first.new × G.step second.old result.1 second.new }
{
    join_mut(rt, first, second)
}

/// What the closure makes of each job, in order. The calling thread does one; each other has a thread of its
/// own, if one can be started.
///
/// # Errors
/// Out of memory; what was made is dropped, and some jobs may have been dropped without a call.
pub fn map_jobs<R: Threads + Sync, J: Send + Drop, X: Send + Drop, F: Fn(J) -> X + Sync>(
    rt: &R,
    jobs: Vec<J>,
    f: &F,
) -> Result<Vec<X>, AllocError>
    requires { AcceptsJobs F.Fn f.now jobs.items }
    ensures count { IfOk result (λ made. length made.items ≡ length jobs.items) }
    ensures each { IfOk result (λ made. GivesJobs F.Fn f.now jobs.items made.items) }
{
    thread::map_vec(rt, jobs, f)
}
