//! Background work beside a script: a hold, which audits one version, or a watch, whose watchers take turns at the
//! versions that are published while it runs. What it found comes back as reports when it is joined.
#![tactic(auto)]

mod counting;
mod hold;
mod reporting;
mod watched;
mod work;

pub use counting::Counting;
pub use hold::RunningHold;
pub use watched::RunningWatch;
pub use work::Work;
