//! Numbered versions that one writer publishes and readers take without waiting.
#![tactic(auto)]

mod closing;
mod edge;
mod history;
mod laws;
mod opening;
mod place;
mod reader;
mod shown;
mod side;
mod usage;
mod writer;

pub use closing::{Closed, abandon, close};
pub use history::Front;
pub use laws::histories_grow;
pub use opening::open;
pub use place::View;
pub use reader::{Reader, Told};
pub use shown::Shown;
pub use usage::Usage;
pub use writer::Writer;
