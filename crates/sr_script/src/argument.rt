//! What the words behind the first name: system ids, numbers, kinds of failures, links, and repairs.

ghost use Rattle.std.specs.Prelude.{◌≡◌, ◌+◌, ◌<◌, ◌≤◌, IfSome, MatchOption};
ghost use Rattle.sr_model.specs.SystemText.{system_read};
ghost use Rattle.sr_script.specs.Words.{word_at};
ghost use Rattle.sr_script.specs.Number.{number_in as number_within};
ghost use Rattle.sr_script.specs.Says.{AreGiven, kind_word, ends_arguments, grouping_word, link_arguments, repair_arguments};
ghost use Rattle.sr_script.specs.Answers.{NamesNoKind, NamesNoGrouping, NamesNoEnds, NamesNoLink, NamesNoRepair};

use crate::name::{EndNames, LinkName, MOST_LINK_NUMBER, RepairName};
use crate::number::number_in;
use crate::words::{KEPT, Words};
use sr_insight::Grouping;
use sr_model::{Kind, SystemId};

/// The system id at a place.
pub(crate) fn system_argument(words: &Words<'_>, place: usize) -> Option<SystemId>
    requires { place < KEPT }
    ensures { result ≡ system_read (word_at words.now place) }
{
    SystemId::read(words.get(place))
}

/// The number at a place, where it is at least the one bound and at most the other.
pub(crate) fn number_argument(words: &Words<'_>, place: usize, low: u32, high: u32) -> Option<u32>
    requires { place < KEPT }
    ensures value { result ≡ number_within low high (word_at words.now place) }
    ensures range { IfSome result (λ n. (low ≤ n) × (n ≤ high)) }
{
    number_in(words.get(place), low, high)
}

/// The kind of failure at a place.
pub(crate) fn kind_argument(words: &Words<'_>, place: usize) -> Option<Kind>
    requires { place < KEPT }
    ensures { MatchOption result
        (NamesNoKind (word_at words.now place))
        (λ kind. word_at words.now place ≡ kind_word kind) }
{
    if words.has(place, b"link") {
        Some(Kind::Link)
    } else if words.has(place, b"node") {
        Some(Kind::Node)
    } else if words.has(place, b"risk") {
        Some(Kind::Risk)
    } else {
        None
    }
}

/// What the word at a place groups an audit by.
pub(crate) fn grouping_argument(words: &Words<'_>, place: usize) -> Option<Grouping>
    requires { place < KEPT }
    ensures { MatchOption result
        (NamesNoGrouping (word_at words.now place))
        (λ grouping. word_at words.now place ≡ grouping_word grouping) }
{
    if words.has(place, b"kind") {
        Some(Grouping::Kind)
    } else if words.has(place, b"node") {
        Some(Grouping::Node)
    } else if words.has(place, b"link") {
        Some(Grouping::Link)
    } else if words.has(place, b"destination") {
        Some(Grouping::Destination)
    } else {
        None
    }
}

/// The ends that are named from a place on.
pub(crate) fn ends_argument(words: &Words<'_>, place: usize) -> Option<EndNames>
    requires { place + 1 < KEPT }
    ensures { MatchOption result (NamesNoEnds words.now place)
        (λ ends. AreGiven words.now place (ends_arguments ends)) }
{
    let from = system_argument(words, place)?;
    let to = system_argument(words, place + 1)?;
    Some(EndNames { from, to })
}

/// The link that is named from a place on.
pub(crate) fn link_argument(words: &Words<'_>, place: usize) -> Option<LinkName>
    requires { place + 2 < KEPT }
    ensures { MatchOption result (NamesNoLink words.now place)
        (λ link. AreGiven words.now place (link_arguments link)) }
{
    let from = system_argument(words, place)?;
    let to = system_argument(words, place + 1)?;
    let n = number_argument(words, place + 2, 1, MOST_LINK_NUMBER)?;
    Some(LinkName { from, to, n })
}

/// The failure and the destination that are named from a place on.
pub(crate) fn repair_argument(words: &Words<'_>, place: usize) -> Option<RepairName>
    requires { place + 4 < KEPT }
    ensures { MatchOption result (NamesNoRepair words.now place)
        (λ repair. AreGiven words.now place (repair_arguments repair)) }
{
    let kind = kind_argument(words, place)?;
    let link = link_argument(words, place + 1)?;
    let dest = system_argument(words, place + 4)?;
    Some(RepairName { kind, link, dest })
}
