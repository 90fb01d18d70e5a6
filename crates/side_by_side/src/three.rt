//! Three processes, or groups of them, side by side.
use crate::{Start, beside};
use std::sync::Wait;
use std::thread::{Promise, Threads};

/// Calls each of the first two in a new thread and the third in this one. Where no thread can be made for
/// one, the start is refused at once. What each of the two answers keeps its promise.
pub fn three_beside<
    R: Threads + Wait,
    P: Promise<A> + Drop,
    Q: Promise<B> + Drop,
    F: FnOnce() -> A + Send,
    G: FnOnce() -> B + Send,
    K: FnOnce() -> E,
    A: Send + Drop,
    B: Send + Drop,
    E,
>(rt: &R, start: &Start, promises: (P, Q), first: F, second: G, third: K) -> (A, B, E)
    requires begin { F.pre first × G.pre second × K.pre third }
    requires keeps_first { (answer : A) → F.post first answer → P.kept_by promises.0 answer }
    requires keeps_second { (answer : B) → G.post second answer → Q.kept_by promises.1 answer }
    ensures first { P.kept_by promises.0 result.0 }
    ensures second { Q.kept_by promises.1 result.1 }
    ensures third { K.post third result.2 }
{
    let (of_first, of_second) = promises;
    let (a, (b, e)) = beside(
        rt,
        start,
        of_first,
        first,
        move || -> (B, E)
            requires begin { G.pre second × K.pre third }
            requires keeps_second { (answer : B) → G.post second answer → Q.kept_by of_second answer }
            ensures second { Q.kept_by of_second result.0 }
            ensures third { K.post third result.1 }
        { beside(rt, start, of_second, second, third) },
    );
    (a, b, e)
}
