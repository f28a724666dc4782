//! Watchers: threads that take turns at a store, inspect what they see, and hand their readers and rounds back.
#![tactic(auto)]

mod apart;
mod inspect;
mod joined;
mod launch;
mod running;
mod seated;
mod stock;
mod task;
mod watch;

pub use apart::{Apart, Rounds};
pub use inspect::{Gate, Inspect, OpenGate, Round};
pub use joined::Joined;
pub use seated::{Finished, Seated};
pub use task::{Rota, Task};
pub use watch::{Watch, hold, start};
