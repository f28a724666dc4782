//! What the program asks of its runtime.

use std::sync::Wait;
use std::thread::Threads;

/// A runtime that starts threads and waits for them, and of which each thread can have its own. Its bounds stand here
/// alone: what is asked of a runtime is this trait.
pub trait Runtime: Threads + Wait + Sync + Send + Copy {}

impl<R: Threads + Wait + Sync + Send + Copy> Runtime for R {}
