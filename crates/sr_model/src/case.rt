//! What fails.

use crate::link::LinkNo;

/// What fails together with the protected link of a case.
#[derive(Clone, Copy, Debug, PartialEq, Eq, PartialOrd, Ord)]
pub enum Kind {
    /// A link case: the pair of the protected link fails.
    Link,
    /// A node case: the node at the end of the protected link fails.
    Node,
    /// An SRLG case: the pair of the protected link fails, and so do the pairs at its beginning that share a risk group
    /// with it.
    Risk,
}

/// A failure that repairs are computed for: its kind, and the protected link, at whose beginning the repair is made.
#[derive(Clone, Copy, Debug, PartialEq, Eq, PartialOrd, Ord)]
pub struct Case {
    pub kind: Kind,
    pub link: LinkNo,
}
