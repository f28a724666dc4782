//! The numbers of the registries, each said once: code, contracts and definitions cite them.

/// TLV: extended IS reachability (RFC 5305, 3).
pub const EXTENDED_REACH: u8 = 22;

/// TLV: extended IP reachability (RFC 5305, 4).
pub const EXTENDED_PREFIX: u8 = 135;

/// TLV: the name of a router (RFC 5301, 3).
pub const HOST_NAME: u8 = 137;

/// TLV: shared-risk link groups (RFC 5307, 1.4).
pub const SHARED_RISK: u8 = 138;

/// TLV: the router capability (RFC 7981, 2).
pub const ROUTER_CAPABILITY: u8 = 242;

/// Sub-TLV of extended IS reachability: link identifiers (RFC 5307, 1.1).
pub const LINK_IDS: u8 = 4;

/// Sub-TLV of extended IS reachability: the own interface's address (RFC 5305, 3.2).
pub const OWN_ADDR: u8 = 6;

/// Sub-TLV of extended IS reachability: the neighbour's address (RFC 5305, 3.3).
pub const NEIGHBOUR_ADDR: u8 = 8;

/// Sub-TLV of extended IS reachability: the SID of an adjacency (RFC 8667, 2.2.1).
pub const ADJ_SID: u8 = 31;

/// Sub-TLV of extended IP reachability: the SID of a prefix (RFC 8667, 2.1).
pub const PREFIX_SID: u8 = 3;

/// Sub-TLV of the router capability: SR-Capabilities (RFC 8667, 3.1).
pub const SR_CAPABILITIES: u8 = 2;

/// Sub-TLV of the router capability: maximum SID depths of the node (RFC 8491, 2).
pub const NODE_MSD: u8 = 23;

/// MSD type: how many labels the node can impose on a packet (RFC 8491, 5).
pub const MSD_IMPOSITION: u8 = 1;

/// Sub-TLV of SR-Capabilities: a SID or a label (RFC 8667, 2.3).
pub const SID_LABEL: u8 = 1;

/// The V and the L flag of a Prefix-SID: both are set where it is a label, and clear where it is an index
/// (RFC 8667, 2.1.1).
pub const PREFIX_SID_FORM: u8 = 0x0c;

/// The V and the L flag of an Adj-SID: both are set where it is a label, and clear where it is an index
/// (RFC 8667, 2.2.1).
pub const ADJ_SID_FORM: u8 = 0x30;

/// Flag R of a Prefix-SID: the prefix comes from another level or another protocol (RFC 8667, 2.1.1).
pub const PREFIX_SID_READVERTISED: u8 = 0x80;

/// Flag N of a Prefix-SID: it is the SID of a node (RFC 8667, 2.1.1).
pub const PREFIX_SID_NODE: u8 = 0x40;

/// Flag P of a Prefix-SID: the neighbour before the node doesn't pop the label (RFC 8667, 2.1.1).
pub const PREFIX_SID_NO_POP: u8 = 0x20;

/// Flag E of a Prefix-SID: the neighbour before the node puts the explicit null label in its place (RFC 8667, 2.1.1).
pub const PREFIX_SID_EXPLICIT_NULL: u8 = 0x10;

/// Flag F of an Adj-SID: the adjacency is for IPv6 (RFC 8667, 2.2.1).
pub const ADJ_SID_IPV6: u8 = 0x80;

/// Flag B of an Adj-SID: the adjacency may be protected (RFC 8667, 2.2.1).
pub const ADJ_SID_BACKUP: u8 = 0x40;

/// Flag V of an Adj-SID: it carries a value (RFC 8667, 2.2.1).
pub const ADJ_SID_VALUE: u8 = 0x20;

/// Flag L of an Adj-SID: the value is of the router's own (RFC 8667, 2.2.1).
pub const ADJ_SID_LOCAL: u8 = 0x10;

/// Flag S of an Adj-SID: the label stands for a set of adjacencies (RFC 8667, 2.2.1).
pub const ADJ_SID_SET: u8 = 0x08;

/// Flag P of an Adj-SID: the adjacency keeps it over restarts (RFC 8667, 2.2.1).
pub const ADJ_SID_PERSISTENT: u8 = 0x04;

/// Flag of an LSP: its router is overloaded (ISO 10589, 9.9).
pub const LSP_OVERLOAD: u8 = 0x04;

/// The metric of a link that the computation leaves out (RFC 5305, 3).
pub const MAXIMUM_METRIC: u32 = 16777215;

/// Control octet of extended IP reachability: the prefix came down from a higher level (RFC 5305, 4).
pub const PREFIX_DOWN: u8 = 0x80;

/// Control octet of extended IP reachability: sub-TLVs are present (RFC 5305, 4).
pub const PREFIX_SUBS: u8 = 0x40;

/// Flag of shared-risk link groups: the link is numbered (RFC 5307, 1.4).
pub const RISK_NUMBERED: u8 = 0x01;

/// The longest IPv4 prefix, in bits (RFC 5305, 4).
pub const ADDRESS_BITS: u8 = 32;

/// The octets of the type and the length of a TLV or sub-TLV (ISO 10589, 9.9).
pub const FRAME: u128 = 2;

/// The longest value of a TLV or sub-TLV, in octets: its length stands in one (ISO 10589, 9.9).
pub const LONGEST_VALUE: u128 = 255;

/// The longest PDU, in octets: its length stands in two (ISO 10589, 9.9).
pub const LONGEST_PDU: u128 = 65535;
