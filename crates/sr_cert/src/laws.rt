//! Laws of certificates, with nothing to run.
ghost use Rattle.sr_cert.specs.Laws.{AcceptedCertificatesDeliver, VerdictsAreUnique};
ghost use Rattle.sr_cert.specs.Laws.{CertificatesAreUnique, DraftsWriteOne};

/// In every net an accepted certificate delivers, whichever equal-cost links the nodes take, and nothing is shorter.
pub fn accepted_certificates_deliver()
    ensures { AcceptedCertificatesDeliver }
{}

/// A certificate has one verdict, a node that a case affects has at most one certificate, and a draft and labels write
/// at most one.
pub fn certificates_are_determined()
    ensures verdicts { VerdictsAreUnique }
    ensures certificates { CertificatesAreUnique }
    ensures drafts { DraftsWriteOne }
{}
