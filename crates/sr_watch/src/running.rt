//! A thread that keeps a promise, or what was made here where none could be started.
ghost use Rattle.std.specs.Prelude.{◌≡◌};

use std::marker::Model;
use std::thread;
use std::thread::{Promise, PromisedHandle, Threads};

/// A thread that makes a value, or the value. Contracts see it as what was promised. It isn't `Drop`, so whoever has one
/// joins it or hands it on.
pub struct Running<T: Drop, P: Promise<T> + Drop> {
    plan: P,
    child: Option<PromisedHandle<T, P>>,
    done: Option<T>,
}

impl<T: Drop, P: Promise<T> + Drop> Model for Running<T, P> {
    ghost use Rattle.std.specs.Prelude.{◌≡◌, None, IfSome, IsSomeAnd};

    ghost Value = { P };

    ghost view = { λ w. w.plan };

    ghost invariant = { λ w. (IfSome w.child (λ h. (t : T) → P.kept_by h.promise t → P.kept_by w.plan t))
        × (w.child ≡ None → IsSomeAnd w.done (P.kept_by w.plan)) };
}

// Calls it in this thread.
fn here<T, F: FnOnce() -> T>(f: F) -> T
    requires { F.pre f }
    ensures { F.post f result }
{
    f()
}

impl<T: Drop, P: Promise<T> + Drop> Running<T, P> {
    /// Starts a thread that makes what the plan promises. Where no thread can be started, it is made here. The plan is
    /// handed in twice: the thread's handle keeps one of them.
    pub(crate) fn begin<R, F>(rt: &R, plan: P, same: P, f: F) -> Running<T, P>
    where
        R: Threads,
        F: FnOnce() -> T + Send + 'static,
        T: Send + 'static,
        requires runs { F.pre f }
        requires keeps { (t : T) → F.post f t → P.kept_by plan t }
        requires same { (t : T) → P.kept_by same t → P.kept_by plan t }
        requires again { (t : T) → F.post f t → P.kept_by same t }
        ensures { result ≡ plan }
    {
        match thread::spawn_with(rt, same, f) {
            Ok(child) => Running {
                plan,
                child: Some(child),
                done: None,
            },
            Err(refused) => Running {
                plan,
                child: None,
                done: Some(here(refused.value)),
            },
        }
    }

    /// Waits for the thread, and gives what was made.
    pub(crate) fn join(self, rt: &impl Threads) -> T
        ensures { P.kept_by self result }
    {
        let Running {
            plan: _,
            child,
            done,
        } = self;
        match child {
            Some(child) => child.join(rt),
            None => done.unwrap(),
        }
    }
}
