//! The lines of certificates.
ghost use Rattle.std.specs.Prelude.{◌≡◌, ◌<◌, ◌++◌, false, map, OnOk, OnErr};
ghost use Rattle.std.specs.List.{flat_map, All};
ghost use Rattle.sr_model.specs.Audit.{is_least};
ghost use Rattle.sr_model.specs.Graph.{link_count, node_count};
ghost use Rattle.sr_cert.specs.declared.draft.CertLine.TheVariants.{NodeSegment};
ghost use Rattle.sr_cert.specs.Draft.{lines_of, segment_line};
ghost use Rattle.sr_cert.specs.Verdict.{IsSegmentWithin, IsWithinNet};
ghost use Rattle.sr_print.specs.Certificates.{cell_word, cert_line, certificate_lines, done_line, opening_line, row_line};
ghost use Rattle.sr_print.specs.Certificates.{proof_line, prove_uncovered_line, verdict_line};
ghost use Rattle.sr_print.specs.Printed.{BeginsWith, ended};
ghost use Rattle.sr_print.specs.Links.{named_link};

use crate::line::{end, put_numbered};
use crate::link::put_link_name;
use crate::number::{put_node, put_value};
use crate::repair::{name_of, put_labels_behind, put_uncovered};
use sr_cert::{Certificate, Verdict};
use sr_labels::Net;
use sr_model::{Answer, FAR, LinkNo, NodeNo, Segment};
use sr_seq::Seq;
use std::alloc::AllocError;

/// Appends a cell of a row as one more word, `-` where there is no walk.
/// After an error a part of it may stand there; what stood before stays.
#[tactic(auto, unfolding(crate::specs::Certificates::cell_word))]
fn put_cell(cell: u64, out: &mut Vec<u8>) -> Result<(), AllocError>
    ensures line { OnOk result (out.new.items ≡ out.old.items ++ cell_word cell) }
    ensures err { OnErr result (BeginsWith out.old.items out.new.items) }
{
    if cell == FAR {
        out.extend_from_slice(b" -")
    } else {
        put_value(cell, out)
    }
}

/// Appends the cells of a row, each as one more word.
/// After an error a part of them may stand there; what stood before stays.
fn put_cells(cells: &[u64], out: &mut Vec<u8>) -> Result<(), AllocError>
    ensures line { OnOk result (out.new.items ≡ out.old.items ++ flat_map cell_word cells.now) }
    ensures err { OnErr result (BeginsWith out.old.items out.new.items) }
{
    for cell in cells {
        put_cell(*cell, out)?;
    }
    Ok(())
}

/// Appends `proof row V V ..`. After an error a part of the line may stand there; what stood before stays.
fn put_row(cells: &[u64], out: &mut Vec<u8>) -> Result<(), AllocError>
    ensures line { OnOk result (out.new.items ≡ out.old.items ++ row_line cells.now) }
    ensures err { OnErr result (BeginsWith out.old.items out.new.items) }
{
    out.extend_from_slice(b"proof row")?;
    put_cells(cells, out)?;
    end(out)
}

/// Appends a line for each row. After an error a part of the lines may stand there; what stood before stays.
fn put_rows(rows: &[Seq<u64>], out: &mut Vec<u8>) -> Result<(), AllocError>
    ensures line { OnOk result (out.new.items ≡ out.old.items ++ flat_map row_line rows.now) }
    ensures err { OnErr result (BeginsWith out.old.items out.new.items) }
{
    for row in rows {
        put_row(row.as_slice(), out)?;
    }
    Ok(())
}

/// Appends a text and a link as a script names it, as a line.
/// After an error a part of it may stand there; what stood before stays.
fn put_link_line(text: &[u8], net: &Net, link: LinkNo, out: &mut Vec<u8>) -> Result<(), AllocError>
    requires { link.0 < link_count net.now.graph }
    ensures line { OnOk result (out.new.items ≡ out.old.items ++ ended (text.now ++ named_link net.now link.0)) }
    ensures err { OnErr result (BeginsWith out.old.items out.new.items) }
{
    out.extend_from_slice(text)?;
    put_link_name(net, link, out)?;
    end(out)
}

/// Appends `proof node NODE`. After an error a part of the line may stand there; what stood before stays.
#[tactic(auto, unfolding(crate::specs::Certificates::cert_line))]
fn put_node_line(net: &Net, node: NodeNo, out: &mut Vec<u8>) -> Result<(), AllocError>
    requires { node.0 < node_count net.now.graph }
    ensures line { OnOk result (out.new.items ≡ out.old.items ++ cert_line net.now (NodeSegment node)) }
    ensures err { OnErr result (BeginsWith out.old.items out.new.items) }
{
    out.extend_from_slice(b"proof node")?;
    put_node(net.graph().system(node), out)?;
    end(out)
}

/// Appends `proof node NODE` or `proof adj A B n`.
/// After an error a part of the line may stand there; what stood before stays.
#[tactic(auto, unfolding(crate::specs::Certificates::cert_line))]
fn put_segment(net: &Net, segment: Segment, out: &mut Vec<u8>) -> Result<(), AllocError>
    requires { IsSegmentWithin net.now segment }
    ensures line { OnOk result (out.new.items ≡ out.old.items ++ cert_line net.now (segment_line segment)) }
    ensures err { OnErr result (BeginsWith out.old.items out.new.items) }
{
    match segment {
        Segment::Node(node) => put_node_line(net, node, out),
        Segment::Adj(link) => put_link_line(b"proof adj", net, link, out),
    }
}

/// Appends a line for each segment. After an error a part of the lines may stand there; what stood before stays.
fn put_segments(net: &Net, segments: &[Segment], out: &mut Vec<u8>) -> Result<(), AllocError>
    requires { All (IsSegmentWithin net.now) segments.now }
    ensures line { OnOk result
        (out.new.items ≡ out.old.items ++ flat_map (cert_line net.now) (map segment_line segments.now)) }
    ensures err { OnErr result (BeginsWith out.old.items out.new.items) }
{
    for segment in segments {
        put_segment(net, *segment, out)?;
    }
    Ok(())
}

/// Appends the first link, the segments and the rows of a certificate, a line each.
/// After an error a part of the lines may stand there; what stood before stays.
fn put_lines(net: &Net, certificate: &Certificate, out: &mut Vec<u8>) -> Result<(), AllocError>
    requires { IsWithinNet net.now certificate.now }
    ensures line { OnOk result
        (out.new.items ≡ out.old.items ++ flat_map (cert_line net.now) (lines_of certificate.now)) }
    ensures err { OnErr result (BeginsWith out.old.items out.new.items) }
{
    put_link_line(b"proof via", net, certificate.first, out)?;
    put_segments(net, certificate.segments.as_slice(), out)?;
    put_rows(certificate.rows.as_slice(), out)
}

/// Appends `proof open KIND A B n D`. After an error a part of the line may stand there; what stood before stays.
fn put_opening(net: &Net, certificate: &Certificate, out: &mut Vec<u8>) -> Result<(), AllocError>
    requires { IsWithinNet net.now certificate.now }
    ensures line { OnOk result (out.new.items ≡ out.old.items ++ opening_line net.now certificate.now) }
    ensures err { OnErr result (BeginsWith out.old.items out.new.items) }
{
    out.extend_from_slice(b"proof open ")?;
    out.extend_from_slice(name_of(certificate.case.kind))?;
    put_link_name(net, certificate.case.link, out)?;
    put_node(net.graph().system(certificate.dest), out)?;
    end(out)
}

/// Appends `proof done X X ..` with the labels from the top down, or `proof done none` where there are none. The top is
/// the last of the labels.
/// After an error a part of the line may stand there; what stood before stays.
fn put_done(labels: &[u32], out: &mut Vec<u8>) -> Result<(), AllocError>
    ensures line { OnOk result (out.new.items ≡ out.old.items ++ done_line labels.now) }
    ensures err { OnErr result (BeginsWith out.old.items out.new.items) }
{
    out.extend_from_slice(b"proof done")?;
    put_labels_behind(labels, out)?;
    end(out)
}

/// Appends the lines of a certificate, as a script says them to have it tested: `proof open KIND A B n D`,
/// `proof via A B n`, for each segment `proof node A` or `proof adj A B n`, `proof row V V ..` for each row, and
/// `proof done X X ..` with its labels from the top down.
/// After an error a part of the lines may stand there; what stood before stays.
pub fn put_certificate(
    net: &Net,
    certificate: &Certificate,
    out: &mut Vec<u8>,
) -> Result<(), AllocError>
    requires { IsWithinNet net.now certificate.now }
    ensures line { OnOk result (out.new.items ≡ out.old.items ++ certificate_lines net.now certificate.now) }
    ensures err { OnErr result (BeginsWith out.old.items out.new.items) }
{
    put_opening(net, certificate, out)?;
    put_lines(net, certificate, out)?;
    put_done(certificate.labels.as_slice(), out)
}

/// Appends `prove uncovered nopath`, `prove uncovered nolist` or `prove uncovered toodeep K`: why there is no repair of
/// which there could be a certificate. The answer isn't a list.
/// After an error a part of the line may stand there; what stood before stays.
pub fn put_unproved(answer: &Answer, out: &mut Vec<u8>) -> Result<(), AllocError>
    requires { is_least answer.now ≡ false }
    ensures line { OnOk result (out.new.items ≡ out.old.items ++ prove_uncovered_line answer.now) }
    ensures err { OnErr result (BeginsWith out.old.items out.new.items) }
{
    out.extend_from_slice(b"prove")?;
    put_uncovered(answer, out)?;
    end(out)
}

/// Appends `proof K`: K lines of the certificate that is being written are kept.
/// After an error a part of the line may stand there; what stood before stays.
pub fn put_proof(kept: u32, out: &mut Vec<u8>) -> Result<(), AllocError>
    ensures line { OnOk result (out.new.items ≡ out.old.items ++ proof_line kept) }
    ensures err { OnErr result (BeginsWith out.old.items out.new.items) }
{
    put_numbered(b"proof ", u64::from(kept), out)?;
    end(out)
}

/// Appends `accepted cost C`, or `rejected N` with the number of the first clause that the certificate doesn't meet.
/// After an error a part of the line may stand there; what stood before stays.
pub fn put_verdict(verdict: Verdict, out: &mut Vec<u8>) -> Result<(), AllocError>
    ensures line { OnOk result (out.new.items ≡ out.old.items ++ verdict_line verdict) }
    ensures err { OnErr result (BeginsWith out.old.items out.new.items) }
{
    match verdict {
        Verdict::Accepted { cost } => put_numbered(b"accepted cost ", cost, out)?,
        Verdict::Rejected(clause) => put_numbered(b"rejected ", u64::from(clause.number()), out)?,
    }
    end(out)
}
