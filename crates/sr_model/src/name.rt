//! Names that last from one state of the domain to the next.
ghost use Rattle.std.specs.Prelude.{◌≡◌, ℕ, ◌<◌, ◌≤◌, ◌^◌, ◌↔◌, IsNone, IfSome};

use std::marker::Model;

/// The system id of a router (ISO 10589, 7.1.1): a number below 2^48. Contracts see it as that number.
#[derive(Clone, Copy, Debug, PartialEq, Eq, PartialOrd, Ord)]
pub struct SystemId {
    value: u64,
}

impl Model for SystemId {
    ghost Value = { ℕ };

    ghost view = { λ id. id.value };

    ghost invariant = { λ id. id.value < 2 ^ 48 };

    ghost inverse = { λ n. record { value = n } };
}

impl SystemId {
    /// The system id of this value, where it has at most 48 bits.
    pub fn new(value: u64) -> Option<SystemId>
        ensures none { IsNone result ↔ (2 ^ 48 ≤ value) }
        ensures some { IfSome result (λ id. id ≡ value) }
    {
        if value < 1 << 48 {
            Some(SystemId { value })
        } else {
            None
        }
    }

    /// The number that the id is.
    pub fn value(self) -> u64
        ensures value { result ≡ self }
        ensures small { result < 2 ^ 48 }
    {
        self.value
    }
}

/// What tells the links between two nodes apart: nothing, the addresses of both interfaces (RFC 5305, 3.2 and 3.3), or
/// the link identifiers of both ends (RFC 5307, 1.1). The announcing end's own number comes first.
#[derive(Clone, Copy, Debug, PartialEq, Eq, PartialOrd, Ord)]
pub enum Ident {
    None,
    Addr(u32, u32),
    Link(u32, u32),
}

impl Ident {
    ghost use Rattle.sr_model.specs.Key.{turned};

    /// The identity as the other end announces it.
    pub fn mirrored(self) -> Ident
        ensures { result ≡ turned self }
    {
        match self {
            Ident::None => Ident::None,
            Ident::Addr(local, remote) => Ident::Addr(remote, local),
            Ident::Link(local, remote) => Ident::Link(remote, local),
        }
    }
}

/// The name of a directed link. Keys are in order of beginning, end and identity.
#[derive(Clone, Copy, Debug, PartialEq, Eq, PartialOrd, Ord)]
pub struct LinkKey {
    pub from: SystemId,
    pub to: SystemId,
    pub ident: Ident,
}

/// The name of a pair of opposite links: its two nodes, and the identity as the lower one announces it.
#[derive(Clone, Copy, Debug, PartialEq, Eq, PartialOrd, Ord)]
pub struct PairKey {
    pub low: SystemId,
    pub high: SystemId,
    pub ident: Ident,
}

impl LinkKey {
    ghost use Rattle.sr_model.specs.Key.{mirror, pair_of};

    /// The name of the opposite link.
    pub fn mirrored(&self) -> LinkKey
        ensures { result ≡ mirror self.now }
    {
        LinkKey {
            from: self.to,
            to: self.from,
            ident: self.ident.mirrored(),
        }
    }

    /// The pair that the link belongs to.
    pub fn pair(&self) -> PairKey
        ensures { result ≡ pair_of self.now }
    {
        if self.from.value() <= self.to.value() {
            PairKey {
                low: self.from,
                high: self.to,
                ident: self.ident,
            }
        } else {
            PairKey {
                low: self.to,
                high: self.from,
                ident: self.ident.mirrored(),
            }
        }
    }
}
