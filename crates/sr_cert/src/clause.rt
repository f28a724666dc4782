//! What is decided of a certificate.
ghost use Rattle.std.specs.Prelude.{◌≡◌};
ghost use Rattle.sr_cert.specs.Clauses.{clause_number};

/// What a certificate has to meet, in the order in which it is tested.
#[derive(Clone, Copy, Debug, PartialEq, Eq)]
pub enum Clause {
    /// There are as many rows as the segments ask for, each with a cell for each node.
    Rows,
    /// The first link, the destination, the segments and the waypoints are allowed.
    Form,
    /// The first row is exact.
    FirstRow,
    /// All other rows are exact.
    OtherRows,
    /// Each node segment, and the way on to the destination, avoids the failed links by every shortest walk.
    Spaces,
    /// The costs add up to the distance without the failed links.
    Sum,
    /// The labels are those of the segments and the destination.
    Labels,
}

impl Clause {
    /// The number of the clause, counted from 1 (this project's rule).
    pub fn number(self) -> u8
        ensures { result ≡ clause_number self }
    {
        match self {
            Clause::Rows => 1,
            Clause::Form => 2,
            Clause::FirstRow => 3,
            Clause::OtherRows => 4,
            Clause::Spaces => 5,
            Clause::Sum => 6,
            Clause::Labels => 7,
        }
    }
}

/// What is decided of a certificate.
#[derive(Clone, Copy, Debug, PartialEq, Eq)]
pub enum Verdict {
    /// All clauses are met: the repair delivers at this cost, and nothing is shorter.
    Accepted { cost: u64 },
    /// The first clause that isn't met.
    Rejected(Clause),
}
