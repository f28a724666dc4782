//! What a node announces.
ghost use Rattle.std.specs.Prelude.{◌≡◌, ◌&&◌};

use crate::srgb::Srgb;
use std::marker::Model;

/// What a node announces: its SRGB, the index of its node segment, the P and E flags of that segment, and how many labels
/// the node can impose.
#[derive(Debug, Drop)]
pub struct NodeLabels {
    srgb: Srgb,
    index: Option<u32>,
    keep: bool,
    explicit: bool,
    imposes: Option<u8>,
}

impl Model for NodeLabels {
    ghost use Rattle.sr_model.specs.Label.{Labels};

    ghost Value = { Labels };

    ghost view = { λ a. record { srgb = a.srgb; index = a.index; keep = a.keep; explicit = a.explicit; imposes = a.imposes } };
}

impl NodeLabels {
    /// What the node announces: its SRGB, its index where it has one, the P flag (`keep`), the E flag (`explicit`), and
    /// its maximum number of imposed labels (MSD type 1, RFC 8491, 5) where it announces one. The E flag counts only with
    /// the P flag, and is cleared without it (RFC 8667, 2.1.1).
    pub fn new(
        srgb: Srgb,
        index: Option<u32>,
        keep: bool,
        explicit: bool,
        imposes: Option<u8>,
    ) -> NodeLabels
        ensures { result
            ≡ record { srgb = srgb; index = index; keep = keep; explicit = keep && explicit; imposes = imposes } }
    {
        NodeLabels {
            srgb,
            index,
            keep,
            explicit: keep && explicit,
            imposes,
        }
    }

    /// The label ranges.
    pub fn srgb(&self) -> &Srgb
        ensures { result.now ≡ self.now.srgb }
    {
        &self.srgb
    }

    /// The index of the node's segment, where it has one.
    pub fn index(&self) -> Option<u32>
        ensures { result ≡ self.now.index }
    {
        self.index
    }

    /// Whether a packet keeps the segment's label up to the node (P flag).
    pub fn keep(&self) -> bool
        ensures { result ≡ self.now.keep }
    {
        self.keep
    }

    /// Whether the label that it keeps is explicit null (P and E flags).
    pub fn explicit(&self) -> bool
        ensures { result ≡ self.now.explicit }
    {
        self.explicit
    }

    /// How many labels the node can impose, where it announces that.
    pub fn imposes(&self) -> Option<u8>
        ensures { result ≡ self.now.imposes }
    {
        self.imposes
    }
}
