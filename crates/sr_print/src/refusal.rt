//! Why a line is refused.

use sr_model::{DomainRule, SystemId};

/// Why a line of a script is refused, with what the refusal names. The order is that of the numbers by which refusals
/// are known (this project's rule).
#[derive(Clone, Copy, Debug, PartialEq, Eq)]
pub enum Refusal {
    /// The first word is no word of a script.
    UnknownWord,
    /// The number of words, or an argument's form or range, is wrong.
    BadForm,
    /// The octets aren't written in pairs of hexadecimal digits.
    BadHex,
    /// The octets fail a check of link-state PDUs, at this octet.
    Malformed {
        offset: u64,
        what: u8,
    },
    /// The database holds a PDU of this id that the given one doesn't replace. Both are told by their sequence
    /// numbers.
    Stale {
        stored: u32,
        given: u32,
    },
    /// As many edits are staged as may be.
    StagedFull,
    /// The staged edits break a rule of the profile.
    Rule(DomainRule),
    /// A node is overloaded. Nets have overloaded nodes, so no line answers this; its number isn't used again.
    Overload {
        node: SystemId,
    },
    /// A system isn't a node of the current version.
    NoNode {
        node: SystemId,
    },
    /// There is no link of this number between the two nodes.
    NoLink {
        from: SystemId,
        to: SystemId,
        n: u32,
    },
    /// The destination has no node index.
    NoDestination {
        node: SystemId,
    },
    /// The failure doesn't concern the destination.
    NotAffected {
        node: SystemId,
    },
    /// No commit was accepted yet.
    NoVersion,
    /// Work runs in the background already.
    WatchRunning,
    /// The line has more bytes than it may.
    LineTooLong,
    /// As many commits were accepted as may be.
    VersionsFull,
    /// No certificate is being written.
    NoProof,
    /// As many lines of a certificate are kept as may be.
    ProofFull,
    /// The version is none of the last two.
    NoSuchVersion {
        version: u32,
    },
}
