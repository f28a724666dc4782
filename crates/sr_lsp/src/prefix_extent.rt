//! Where the parts of an entry of extended IP reachability stand (RFC 5305, 4).

/// The places at which the prefix of an entry ends, its sub-TLVs begin, and the entry ends.
#[derive(Clone, Copy, Debug)]
pub struct Extent {
    pub prefix_end: usize,
    pub subs_from: usize,
    pub end: usize,
}
