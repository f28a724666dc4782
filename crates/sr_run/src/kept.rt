//! The versions that a session keeps: those of the last two accepted commits.
ghost use Rattle.std.specs.Prelude.{◌≡◌, Some, None, IfOk, MatchResult};
ghost use Rattle.std.specs.Arc.{arc_value};
ghost use Rattle.std.specs.Option.{option_map};
ghost use Rattle.sr_run.specs.Differences.{numbered_of};
ghost use Rattle.sr_run.specs.Domain.{number_of};
ghost use Rattle.sr_run.specs.State.{HasAudit};

use sr_print::Refusal;
use sr_repair::Version;
use std::alloc::{AllocError, Global};
use std::marker::Model;
use std::sync::Arc;

/// The version of an accepted commit, where there is one. Background work shares it. Contracts see the version alone.
#[derive(Drop)]
pub(crate) struct KeptVersion {
    shared: Option<Arc<Version>>,
}

impl Model for KeptVersion {
    ghost use Rattle.std.specs.declared.option.Option.{Option};
    ghost use Rattle.std.specs.Option.{option_map};
    ghost use Rattle.std.specs.Arc.{arc_value};
    ghost use Rattle.sr_repair.specs.Version.{NumberedNet};

    ghost Value = { Option NumberedNet };

    ghost view = { λ c. option_map (λ a. arc_value a) c.shared };
}

impl KeptVersion {
    /// There is none before the first commit.
    pub(crate) fn none() -> KeptVersion
        ensures { result ≡ None }
    {
        KeptVersion { shared: None }
    }

    /// This version, to be shared. Fails only out of memory.
    pub(crate) fn new(alloc: Global, version: Version) -> Result<KeptVersion, AllocError>
        ensures { IfOk result (λ current. current ≡ Some version) }
    {
        match Arc::new(alloc, version) {
            Ok(shared) => Ok(KeptVersion {
                shared: Some(shared),
            }),
            Err(_) => Err(AllocError),
        }
    }

    /// Another share of the version, where there is one. Fails only out of memory.
    pub(crate) fn share(&self) -> Result<Option<Arc<Version>>, AllocError>
        ensures { IfOk result (λ found. option_map (λ a. arc_value a) found ≡ self.now) }
    {
        match &self.shared {
            Some(shared) => match Arc::try_clone(shared) {
                Ok(share) => Ok(Some(share)),
                Err(wanting) => Err(wanting),
            },
            None => Ok(None),
        }
    }
}

/// The version of the last commit, or the refusal where nothing was committed yet.
pub(crate) fn last_version(current: &KeptVersion) -> Result<&Version, Refusal>
    ensures { MatchResult result
        (λ version. current.now ≡ Some version.now)
        (λ reason. (current.now ≡ None) × (reason ≡ Refusal.NoVersion)) }
{
    match &current.shared {
        Some(shared) => Ok(&**shared),
        None => Err(Refusal::NoVersion),
    }
}

/// Of a version and the one before it that of this number. None where neither has it.
pub(crate) fn version_numbered<'a>(
    previous: &'a KeptVersion,
    version: &'a Version,
    number: u32,
) -> Option<&'a Version>
    ensures { option_map (λ v. v.now) result ≡ numbered_of number previous.now version.now }
{
    if version.number() == number {
        return Some(version);
    }
    match &previous.shared {
        Some(shared) if shared.number() == number => Some(&**shared),
        _ => None,
    }
}

/// Tells that the version has an audit.
pub(crate) fn has_audit(version: &Version)
    ensures { HasAudit version.now }
{
    let _net = version.net();
    version.is_answered();
}

/// The number of the last version, and 0 before the first.
pub(crate) fn last_number(current: &KeptVersion) -> u32
    ensures { result ≡ number_of current.now }
{
    match &current.shared {
        Some(shared) => shared.number(),
        None => 0,
    }
}
