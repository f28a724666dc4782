//! What a place of a store knows. No value of these is made.

/// Which store it is, by the numbers of its history.
pub struct StoreName {
    pub number: u64,
    pub log_name: u64,
    pub cells_name: u64,
}

/// Whether a place knows its store, which one that is, and whether it saw the close mark.
pub struct View {
    pub knows: bool,
    pub store: StoreName,
    pub closed: bool,
}
