//! By what the items of an audit are grouped.

/// By what the items of an audit are put into groups: the kind of the failure, the protecting node (the one at which the
/// repair is made), the protected link, or the destination.
#[derive(Clone, Copy, Debug, PartialEq, Eq)]
pub enum Grouping {
    Kind,
    Node,
    Link,
    Destination,
}
