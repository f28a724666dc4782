//! The lines of a certificate.
ghost use Rattle.std.specs.Prelude.{IfOk, IfSome};
ghost use Rattle.sr_cert.specs.Verdict.{IsWithinNet};

use super::fixtures::{expect_text, ring_net};
use sr_cert::Certificate;
use sr_labels::Net;
use sr_model::{Case, FAR, Kind, LinkNo, NodeNo, Segment};
use sr_print::put_certificate;
use sr_seq::Seq;
use std::alloc::{AllocError, Global};
use std::test::Fail;

/// A row, and one that isn't full.
fn rows(alloc: Global) -> Result<Vec<Seq<u64>>, AllocError> {
    let first = Seq::new(vec![in alloc; 0, 3, 2, 1]?);
    let second = Seq::new(vec![in alloc; 1, FAR, 1, 0]?);
    Ok(vec![in alloc; first, second]?)
}

/// A certificate of the failure of the link from 1 to 2 for 2, with a segment of each kind and a row that isn't full.
fn certificate(alloc: Global, net: &Net) -> Result<Option<Certificate>, AllocError>
    ensures { IfOk result (λ found. IfSome found (IsWithinNet net.now)) }
{
    if net.graph().node_count() < 4 || net.graph().link_count() < 8 {
        return Ok(None);
    }
    let labels = vec![in alloc; 16002, 16003]?;
    let segments = vec![in alloc; Segment::Node(NodeNo(2)), Segment::Adj(LinkNo(4))]?;
    let rows = rows(alloc)?;
    Ok(Some(Certificate {
        case: Case {
            kind: Kind::Link,
            link: LinkNo(0),
        },
        dest: NodeNo(1),
        first: LinkNo(1),
        segments: Seq::new(segments),
        rows: Seq::new(rows),
        labels: Seq::new(labels),
    }))
}

/// The lines of a certificate of the net.
fn certificate_lines(alloc: Global, net: &Net) -> Result<Vec<u8>, Fail> {
    let certificate = certificate(alloc, net)?.ok_or("no ring")?;
    let mut out = Vec::new(alloc);
    let put = put_certificate(net, &certificate, &mut out);
    drop(certificate);
    put?;
    Ok(out)
}

#[test]
fn certificates_are_printed(rt: HostRuntime) -> Result<(), Fail> {
    let text = "proof open link 0000.0000.0001 0000.0000.0002 1 0000.0000.0002\n\
        proof via 0000.0000.0001 0000.0000.0004 1\n\
        proof node 0000.0000.0003\n\
        proof adj 0000.0000.0003 0000.0000.0002 1\n\
        proof row 0 3 2 1\n\
        proof row 1 - 1 0\n\
        proof done 16003 16002\n";
    let net = ring_net(rt.alloc())?;
    let lines = certificate_lines(rt.alloc(), &net);
    drop(net);
    expect_text(&rt, &lines?, text);
    Ok(())
}
