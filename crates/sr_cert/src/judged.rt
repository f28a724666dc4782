//! The test of a certificate.
ghost use Rattle.std.specs.Prelude.{◌≡◌, [], length, IfOk, MatchOption};
ghost use Rattle.sr_model.specs.Graph.{link_count};
ghost use Rattle.sr_cert.specs.Verdict.{IsVerdict, IsWithinNet};
ghost use Rattle.sr_cert.specs.Certified.{DeliversWhereAccepted};
ghost use Rattle.sr_cert.specs.Failing.{MeetsAll, FailsFirst};

use crate::certificate::Certificate;
use crate::clause::{Clause, Verdict};
use crate::form::{has_rows, is_well_formed};
use crate::labelled::has_labels;
use crate::walked::{adds_up, begins_exact, goes_on_exact, stays_in_spaces, whole_cell};
use sr_graph::LinkSet;
use sr_labels::Net;
use std::alloc::{AllocError, Global};

/// The first clause that the certificate fails, or none where it meets all. `x` has the failed links, and `nothing` no
/// link.
fn first_failing(
    net: &Net,
    x: &LinkSet,
    nothing: &LinkSet,
    certificate: &Certificate,
) -> Option<Clause>
    requires within { IsWithinNet net.now certificate.now }
    requires failed { length x.now ≡ link_count net.now.graph }
    requires nothing { nothing.now ≡ [] }
    ensures { MatchOption result
        (MeetsAll net.now x.now certificate.now)
        (FailsFirst net.now x.now certificate.now) }
{
    if !has_rows(net, certificate) {
        return Some(Clause::Rows);
    }
    if !is_well_formed(net, x, certificate) {
        return Some(Clause::Form);
    }
    if !begins_exact(net, x, certificate) {
        return Some(Clause::FirstRow);
    }
    if !goes_on_exact(net, nothing, certificate) {
        return Some(Clause::OtherRows);
    }
    if !stays_in_spaces(net, x, certificate) {
        return Some(Clause::Spaces);
    }
    if !adds_up(net, certificate) {
        return Some(Clause::Sum);
    }
    if !has_labels(net, certificate) {
        return Some(Clause::Labels);
    }
    None
}

/// Tests a certificate, clause by clause, by the links of the net alone: nothing is searched for. Accepted means that
/// the labels deliver, whichever equal-cost links the nodes take, and that no walk without the failed links costs less
/// (this project's rule). Fails only out of memory.
pub fn verdict(alloc: Global, net: &Net, certificate: &Certificate) -> Result<Verdict, AllocError>
    requires { IsWithinNet net.now certificate.now }
    ensures verdict { IfOk result (IsVerdict net.now certificate.now) }
    ensures delivers { IfOk result (DeliversWhereAccepted net.now certificate.now) }
{
    let failed = net.graph().failed(alloc, certificate.case)?;
    let nothing = net.graph().nothing(alloc)?;
    match first_failing(net, &failed, &nothing, certificate) {
        Some(clause) => Ok(Verdict::Rejected(clause)),
        None => Ok(Verdict::Accepted {
            cost: whole_cell(certificate),
        }),
    }
}
