// Two processes side by side.
ghost use Rattle.std.specs.Prelude.{Bool};

use std::sync::Wait;
use std::thread;
use std::thread::{Promise, Threads};

/// Calls the first in a new thread and the second, which is told so, in this one. Where no thread can be made
/// the second is told that, and the first is called behind it. What the first answers keeps the promise.
pub(crate) fn beside<
    R: Threads + Wait,
    P: Promise<A> + Drop,
    F: FnOnce() -> A + Send,
    G: FnOnce(bool) -> B,
    A: Send + Drop,
    B,
>(rt: &R, promise: P, first: F, second: G) -> (A, B)
    requires begin { F.pre first × ((go : Bool) → G.pre second go) }
    requires keeps { (answer : A) → F.post first answer → P.kept_by promise answer }
    ensures first { P.kept_by promise result.0 }
    ensures second { (go : Bool) × G.post second go result.1 }
{
    thread::scope(
        thread::scope_env(),
        rt,
        move |scope| -> (A, B)
            requires begin { F.pre first × ((go : Bool) → G.pre second go) }
            requires keeps { (answer : A) → F.post first answer → P.kept_by promise answer }
            ensures first { P.kept_by promise result.0 }
            ensures second { (go : Bool) × G.post second go result.1 }
        {
            match scope.spawn_with(promise, first) {
                Ok(thread) => {
                    let after = second(true);
                    (thread.join(rt), after)
                }
                Err(refused) => {
                    let after = second(false);
                    ((refused.value)(), after)
                }
            }
        },
    )
}
