//! What isn't used of the facts, and why.
use sr_lsp::LspId;
use sr_model::SystemId;
use sr_subtlv::Sid;

/// Where something is announced: a part of an LSP by its place among the parts, or one of the part's SIDs by its place
/// among these. Places are counted from 0.
#[derive(Clone, Copy, Debug, PartialEq, Eq)]
pub struct Place {
    pub id: LspId,
    pub part: usize,
    pub sid: Option<usize>,
}

/// What is announced there, by name: the neighbour of an entry of extended IS reachability or of shared risks, the
/// prefix of an entry of extended IP reachability, the router id of a router capability, or a SID.
#[derive(Clone, Copy, Debug, PartialEq, Eq)]
pub enum Matter {
    Reach { neighbour: SystemId, pseudonode: u8 },
    Prefix { prefix: u32, length: u8 },
    Name,
    Risk { neighbour: SystemId, pseudonode: u8 },
    Capability { router: u32 },
    AdjSid(Sid),
    PrefixSid(Sid),
}

/// Why something isn't used. The reasons are tried in this order, and the first that holds is told (this project's rule).
#[derive(Clone, Copy, Debug, PartialEq, Eq)]
pub enum Reason {
    /// Its LSP is that of a pseudonode.
    Lan,
    /// The system of its LSP isn't present: its LSP with pseudonode 0 and fragment 0 isn't live.
    Absent,
    /// The neighbour is a pseudonode.
    Pseudonode,
    /// The neighbour is the node itself.
    Itself,
    /// The neighbour isn't present.
    NeighbourAbsent,
    /// The neighbour announces no link to the node.
    OneWay,
    /// The neighbour announces none with the mirrored identity.
    Identity,
    /// The metric is the maximum metric.
    MaximumMetric,
    /// The bidirectional link is down.
    Down,
    /// The prefix isn't that of a single address.
    NotHost,
    /// The prefix has no SID.
    NoSid,
    /// It says neither label ranges nor how many labels can be imposed.
    Silent,
    /// The SID isn't for algorithm 0.
    Algorithm,
    /// An adjacency SID that gives an index, or a Prefix-SID that gives a label.
    WrongForm,
    /// Its flags say that it is for another use: F or S of an adjacency SID; R, or no N, of a Prefix-SID.
    Flags,
    /// It has the flag B, and another SID of the entry gives a label without it.
    Backup,
    /// Another gives a lesser label, or a lesser index.
    NotLeast,
    /// One before it gives the same.
    NotFirst,
    /// None of its SIDs is used.
    NoneUsed,
    /// It names no group.
    NoGroups,
    /// It names no link that the node announces.
    NoLink,
    /// The links that it names aren't in use.
    LinkUnused,
    /// A router's name is for tools alone.
    HostName,
}

/// Something that isn't used, and the first reason that holds.
#[derive(Clone, Copy, Debug, PartialEq, Eq)]
pub struct Aside {
    pub place: Place,
    pub matter: Matter,
    pub reason: Reason,
}
