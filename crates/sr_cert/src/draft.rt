//! A certificate that is being written, line by line.
ghost use Rattle.std.specs.Prelude.{◌≡◌, ◌≤◌, ◌<◌, IfOk, OnOk, OnErr};
ghost use Rattle.sr_cert.specs.declared.draft.TheConstants.{MOST_LINES};
ghost use Rattle.sr_cert.specs.Draft.{IsFinished, kept_lines, with_line};

use crate::certificate::Certificate;
use crate::parts::parts_of;
use sr_model::{Case, LinkNo, NodeNo};
use sr_seq::Seq;
use std::alloc::{AllocError, Global};
use std::marker::Model;

/// The most lines that are kept of a certificate, the one that opened it included (this project's rule).
pub const MOST_LINES: u32 = 4096;

/// A line of a certificate behind the one that opened it.
#[derive(Debug, Drop)]
pub enum CertLine {
    /// The link on which the packet leaves.
    Via(LinkNo),
    /// A node segment.
    NodeSegment(NodeNo),
    /// An adjacency segment.
    AdjSegment(LinkNo),
    /// A row of distances, `FAR` where there is no walk.
    Row(Seq<u64>),
}

/// A certificate that is being written: its case and destination, and the lines since. Contracts see these.
#[derive(Drop)]
pub struct CertDraft {
    case: Case,
    dest: NodeNo,
    lines: Vec<CertLine>,
}

impl Model for CertDraft {
    ghost use Rattle.std.specs.Prelude.{length, ◌<◌};
    ghost use Rattle.sr_cert.specs.declared.draft.TheConstants.{MOST_LINES};
    ghost use Rattle.sr_cert.specs.Draft.{CertDraft as WrittenDraft};

    ghost Value = { WrittenDraft };

    ghost view = { λ d. record { case = d.case; dest = d.dest; lines = d.lines.items } };

    ghost invariant = { λ d. length d.lines.items < MOST_LINES };
}

impl CertDraft {
    ghost use Rattle.std.specs.Prelude.{[]};

    /// A certificate of the case and the destination, with no lines yet.
    pub fn open(alloc: Global, case: Case, dest: NodeNo) -> CertDraft
        ensures { result ≡ record { case = case; dest = dest; lines = [] } }
    {
        CertDraft {
            case,
            dest,
            lines: Vec::new(alloc),
        }
    }

    /// How many lines are kept, the one that opened it included.
    pub fn kept(&self) -> u32
        ensures kept { result ≡ kept_lines self.now }
        ensures most { kept_lines self.now ≤ MOST_LINES }
    {
        self.lines.len() as u32 + 1
    }

    /// Keeps one more line; an error leaves the draft as it was.
    pub fn keep(&mut self, line: CertLine) -> Result<(), AllocError>
        requires { kept_lines self.old < MOST_LINES }
        ensures ok { OnOk result (self.new ≡ with_line self.old line) }
        ensures err { OnErr result (self.new ≡ self.old) }
    {
        match self.lines.push(line) {
            Ok(()) => Ok(()),
            Err(_) => Err(AllocError),
        }
    }

    /// The certificate that the lines and these labels, the top last, write. None exactly where the lines aren't a first
    /// link, then segments, then rows.
    pub fn finish(self, alloc: Global, labels: Seq<u32>) -> Result<Option<Certificate>, AllocError>
        ensures { IfOk result (IsFinished self labels) }
    {
        let CertDraft { case, dest, lines } = self;
        match parts_of(alloc, lines)? {
            Some(parts) => Ok(Some(Certificate {
                case,
                dest,
                first: parts.first,
                segments: parts.segments,
                rows: parts.rows,
                labels,
            })),
            None => Ok(None),
        }
    }
}
