//! Certificates of repairs: a repair with rows of distances, from which anybody decides whether it delivers and nothing
//! is shorter; how one is made, tested, and written line by line.
#![tactic(auto)]

mod certificate;
mod clause;
mod course;
mod draft;
mod exact;
mod form;
mod issued;
mod judged;
mod labelled;
mod laws;
mod parts;
mod taken;
mod walked;

pub use certificate::Certificate;
pub use clause::{Clause, Verdict};
pub use draft::{CertDraft, CertLine, MOST_LINES};
pub use issued::certify;
pub use judged::verdict;
pub use laws::{accepted_certificates_deliver, certificates_are_determined};
