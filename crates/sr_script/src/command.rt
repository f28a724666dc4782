//! What a script asks for.

ghost use Rattle.std.specs.Prelude.{◌≡◌};
ghost use Rattle.sr_script.specs.Says.{is_question};

use crate::name::{EndNames, LinkName, RepairName};
use sr_insight::Grouping;
use sr_model::{Kind, MOST_NODES, SystemId};
use sr_seq::Seq;

/// The greatest label: labels have 20 bits (RFC 3032, 2.1).
pub const MOST_LABEL: u32 = 1_048_575;

/// The greatest choice number.
pub const MOST_CHOICE: u32 = u32::MAX;

/// The most forwarders of a load.
pub const MOST_WORKERS: u32 = 8;

/// The most packets of a load from one node to another.
pub const MOST_EACH: u32 = 4;

/// The greatest distance of a row: 2^33 - 1. No walk without repeated nodes costs as much, since it crosses at most 255
/// links, whose metrics have 24 bits.
pub const MOST_DISTANCE: u64 = 8_589_934_591;

/// The most cells of a row: one for each node.
pub const MOST_CELLS: usize = MOST_NODES;

/// The most labels of a certificate: as many as a segment for each node and the destination have (this project's rule).
pub const MOST_LABELS: usize = 257;

/// A command of a script, with what its words name. `choice` is the number by which equal-cost links are chosen.
#[derive(Debug, Drop)]
pub enum Command {
    /// `lsp HEX`: stages the octets of a link-state PDU.
    Lsp { octets: Seq<u8> },
    /// `cost A B n M`: stages a metric for a link.
    Cost { link: LinkName, metric: u32 },
    /// `down A B n`: stages that a bidirectional link is down.
    Down { link: LinkName },
    /// `up A B n`: stages that a bidirectional link is up.
    Up { link: LinkName },
    /// `depth K`: stages how many segments a repair list may have.
    Depth { depth: u8 },
    /// `commit`: makes a net of what is staged, and publishes it.
    Commit,
    /// `drop`: forgets what is staged.
    DropStaged,
    /// `dist A B`: asks for the distance from A to B.
    Dist { ends: EndNames },
    /// `next A B`: asks for the next hops of A towards B.
    Next { ends: EndNames },
    /// `label A X`: asks what node A does with label X.
    Label { node: SystemId, label: u32 },
    /// `spaces KIND A B n D`: asks for the spaces of a failure and a destination.
    Spaces { repair: RepairName },
    /// `repair KIND A B n D`: asks for the repair list of a failure and a destination.
    Repair { repair: RepairName },
    /// `adjrepair A B n`: asks what a router does with a packet under its own adjacency label when the link fails.
    AdjRepair { link: LinkName },
    /// `walk A D K`: asks for the walk of a packet from A to D.
    Walk { ends: EndNames, choice: u32 },
    /// `walk KIND A B n D K`: asks for the walk of a repaired packet.
    WalkRepair { repair: RepairName, choice: u32 },
    /// `load W K`: asks how often each link is crossed by K packets from each node to each other, which W forwarders
    /// forward.
    Load { workers: u32, each: u32 },
    /// `prove KIND A B n D`: asks for the certificate of the repair of a failure and a destination.
    Prove { repair: RepairName },
    /// `proof open KIND A B n D`: begins a certificate of a failure and a destination.
    ProofOpen { repair: RepairName },
    /// `proof via A B n`: the link on which the packet leaves.
    ProofVia { link: LinkName },
    /// `proof node A`: a node segment.
    ProofNode { node: SystemId },
    /// `proof adj A B n`: an adjacency segment.
    ProofAdj { link: LinkName },
    /// `proof row V V ..`: a row of distances, `FAR` where there is no walk.
    ProofRow { cells: Seq<u64> },
    /// `proof done X X ..`: ends a certificate with its labels, in the order of the words, and asks for the verdict.
    ProofDone { labels: Seq<u32> },
    /// `audit`: asks for the counts over all cases.
    Audit,
    /// `audit full`: asks for the answer of each case, too.
    AuditFull,
    /// `hold`: begins an audit of the current version beside the script.
    Hold,
    /// `watch T R`: starts T watchers of R rounds each.
    Watch { watchers: u32, rounds: u32 },
    /// `join`: waits for the work beside the script, and asks for its reports.
    Join,
    /// `show`: asks for the current version, its nodes and links, the accepted depth, and how many edits are staged.
    Show,
    /// `adjbackup A B n`: asks for another announced adjacency label of the link, which is protected, and what is done
    /// with a packet under it when the link fails.
    AdjBackup { link: LinkName },
    /// `nodes`: asks for the accepted nodes, with their labels.
    Nodes,
    /// `links`: asks for the accepted links, with what is announced of each.
    Links,
    /// `aside`: asks what of the accepted facts isn't used, and why.
    Aside,
    /// `audit by GROUPING`: asks how much of the audit is covered, in groups.
    AuditBy { grouping: Grouping },
    /// `audit labels`: asks how many labels the repairs of the audit push.
    AuditLabels,
    /// `repair KIND A B n`: asks for the answers of a failure for all affected destinations.
    RepairCase { kind: Kind, link: LinkName },
    /// `fails node F`: asks for the repairs on which packets stay when a node fails.
    FailsNode { node: SystemId },
    /// `why KIND A B n D`: asks why a failure has no repair for a destination.
    Why { repair: RepairName },
    /// `diff V`: asks what differs between the repairs of a version and those of the last one.
    Diff { version: u32 },
    /// `check`: asks for all rules that the staged facts break.
    Check,
}

impl Command {
    /// Whether the command asks of a version, and needs no search for distances: such a question may be tried on what is
    /// staged.
    pub fn is_question(&self) -> bool
        ensures { result ≡ is_question self.now }
    {
        match self {
            Command::Dist { .. } | Command::Next { .. } | Command::Label { .. } => true,
            Command::Spaces { .. } | Command::Repair { .. } | Command::RepairCase { .. } => true,
            Command::AdjRepair { .. } | Command::AdjBackup { .. } => true,
            Command::Walk { .. } | Command::WalkRepair { .. } | Command::Load { .. } => true,
            Command::Audit | Command::AuditFull | Command::AuditLabels => true,
            Command::AuditBy { .. } | Command::FailsNode { .. } | Command::Diff { .. } => true,
            Command::Nodes | Command::Links | Command::Aside => true,
            _ => false,
        }
    }
}
