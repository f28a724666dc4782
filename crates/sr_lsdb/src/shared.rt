//! Link-state PDUs that several databases hold.
ghost use Rattle.std.specs.Prelude.{◌≡◌, IfOk};
ghost use Rattle.sr_lsdb.specs.Announcement.{announcements_in};

use crate::announcement::{Announcement, announcements_in};
use sr_lsp::Lsp;
use std::alloc::{AllocError, Global};
use std::marker::Model;
use std::sync::Arc;

/// A link-state PDU with what it announces.
#[derive(Debug, Drop)]
pub(crate) struct AnnouncingLsp {
    pub(crate) lsp: Lsp,
    pub(crate) announced: Vec<Announcement>,
}

/// A link-state PDU that several databases hold, so that none of them copies it. What it announces is listed once, when it
/// comes. Contracts see it as the PDU.
#[derive(Debug, Drop)]
pub struct SharedLsp {
    held: Arc<AnnouncingLsp>,
}

impl Model for SharedLsp {
    ghost use Rattle.std.specs.Prelude.{◌≡◌};
    ghost use Rattle.std.specs.Arc.{arc_value};
    ghost use Rattle.sr_lsp.specs.declared.lsp.Lsp.{Lsp as Pdu};
    ghost use Rattle.sr_lsdb.specs.Announcement.{announcements_in};

    ghost Value = { Pdu };

    ghost view = { λ s. (arc_value s.held).lsp };

    ghost invariant = { λ s. (arc_value s.held).announced.items ≡ announcements_in (arc_value s.held).lsp };
}

impl SharedLsp {
    /// The PDU, to be shared.
    pub fn new(alloc: Global, lsp: Lsp) -> Result<SharedLsp, AllocError>
        ensures { IfOk result (λ shared. shared ≡ lsp) }
    {
        let announced = announcements_in(alloc, &lsp)?;
        let held = Arc::new(alloc, AnnouncingLsp { lsp, announced })?;
        Ok(SharedLsp { held })
    }

    /// The same PDU for one more holder.
    pub fn again(&self) -> Result<SharedLsp, AllocError>
        ensures { IfOk result (λ shared. shared ≡ self.now) }
    {
        let held = Arc::try_clone(&self.held)?;
        Ok(SharedLsp { held })
    }

    /// The PDU.
    pub fn lsp(&self) -> &Lsp
        ensures { result.now ≡ self.now }
    {
        &self.held.lsp
    }

    /// What the PDU announces, in order of place.
    pub fn announced(&self) -> &[Announcement]
        ensures { result.now ≡ announcements_in self.now }
    {
        &self.held.announced
    }
}
