//! The net of a domain's facts: its graph and labels, or the first rule of the profile that the facts break.
#![tactic(auto)]

mod announced;
mod clash;
mod draft;
mod fault;
mod gathered;
mod groups;
mod labels;
mod laws;
mod links;
mod names;
mod net;
mod nodes;
mod overload;
mod risks;
mod topology;
mod two_way;

pub use announced::{announcements, is_present};
pub use clash::adj_labels;
pub use draft::sort_links;
pub use fault::DomainFault;
pub use gathered::{Gathered, gather_facts};
pub use laws::{
    adjacency_labels_are_the_least, nets_are_determined, node_sids_are_the_first_least,
    same_facts_have_the_same_net,
};
pub use links::{FoundLink, effective_metric, link_by};
pub use net::net_of;
pub use nodes::{NodeSid, first_imposition, node_sid, node_sid_by, srgb_of};
pub use risks::{RiskName, numbered_name, unnumbered_name};
pub use two_way::{holds, keys_of};
