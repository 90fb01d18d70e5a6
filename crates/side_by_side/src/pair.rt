//! Two processes, or two groups of them, side by side.
use crate::Start;
use std::sync::Wait;
use std::thread;
use std::thread::{Promise, Threads};

/// Calls the first in a new thread and the second in this one. Where no thread can be made the start is
/// refused at once; then the second ends, and the first is called behind it, so that it hands back what it
/// has. What the first answers keeps the promise.
pub fn beside<
    R: Threads + Wait,
    P: Promise<A> + Drop,
    F: FnOnce() -> A + Send,
    G: FnOnce() -> B,
    A: Send + Drop,
    B,
>(rt: &R, start: &Start, promise: P, first: F, second: G) -> (A, B)
    requires begin { F.pre first × G.pre second }
    requires keeps { (answer : A) → F.post first answer → P.kept_by promise answer }
    ensures first { P.kept_by promise result.0 }
    ensures second { G.post second result.1 }
{
    thread::scope(
        thread::scope_env(),
        rt,
        move |scope| -> (A, B)
            requires begin { F.pre first × G.pre second }
            requires keeps { (answer : A) → F.post first answer → P.kept_by promise answer }
            ensures first { P.kept_by promise result.0 }
            ensures second { G.post second result.1 }
        {
            match scope.spawn_with(promise, first) {
                Ok(thread) => {
                    let after = second();
                    (thread.join(rt), after)
                }
                Err(refused) => {
                    let _ = start.refuse(rt);
                    let after = second();
                    ((refused.value)(), after)
                }
            }
        },
    )
}
