//! Lines that are printed of numbers and answers alone.
use super::fixtures::{expect_text, id};
use sr_cert::{Clause, Verdict};
use sr_insight::StackCount;
use sr_model::{Answer, Counts, DomainRule, Kind, RoundReport, WatchRound};
use sr_print::{
    Refusal, put_dist, put_dropped, put_hold, put_joined, put_proof, put_refused,
    put_repair_counts, put_report, put_show, put_stacks, put_staged, put_summary, put_unproved,
    put_verdict, put_version, put_walk_uncovered, put_watch,
};
use std::alloc::{AllocError, Global};
use std::process::Abort;

/// Appends the lines of edits and distances, and what `show` says.
fn put_lines(out: &mut Vec<u8>) -> Result<(), AllocError> {
    put_staged(4_096, out)?;
    put_dropped(0, out)?;
    put_version(65_535, 256, 2_048, out)?;
    put_dist(Some(4_278_189_570), out)?;
    put_dist(None, out)?;
    put_show(3, 4, 8, 3, 0, out)
}

#[test]
fn lines_are_printed(rt: HostRuntime) -> Result<(), AllocError> {
    let mut out = Vec::new(rt.alloc());
    put_lines(&mut out)?;
    let text =
        "staged 4096\ndropped 0\nversion 65535 nodes 256 links 2048\ndist 4278189570\ndist none\nshow version 3 nodes 4 links 8 depth 3 staged 0\n";
    expect_text(&rt, &out, text);
    Ok(())
}

/// The refusal of this line has this text.
fn check_refusal(
    rt: &impl Abort,
    alloc: Global,
    line: u32,
    refusal: &Refusal,
    text: &str,
) -> Result<(), AllocError> {
    let mut out = Vec::new(alloc);
    put_refused(line, refusal, &mut out)?;
    expect_text(rt, &out, text);
    Ok(())
}

#[test]
fn refusals_are_printed(rt: HostRuntime) -> Result<(), AllocError> {
    let (from, to) = (id(3), id(0xabc));
    let malformed = Refusal::Malformed {
        offset: 45,
        what: 8,
    };
    let overload = Refusal::Overload { node: from };
    let no_link = Refusal::NoLink { from, to, n: 1 };
    for (line, refusal, text) in [
        (1, Refusal::NoVersion, "refused 1 25 NoVersion\n"),
        (2, malformed, "refused 2 4 Malformed 45 8\n"),
        (3, overload, "refused 3 20 Overload 0000.0000.0003\n"),
        (
            5,
            no_link,
            "refused 5 22 NoLink 0000.0000.0003 0000.0000.0abc 1\n",
        ),
        (6, Refusal::NoProof, "refused 6 30 NoProof\n"),
        (7, Refusal::ProofFull, "refused 7 31 ProofFull\n"),
        (
            8,
            Refusal::NoSuchVersion { version: 65_535 },
            "refused 8 32 NoSuchVersion 65535\n",
        ),
    ] {
        check_refusal(&rt, rt.alloc(), line, &refusal, text)?;
    }
    Ok(())
}

#[test]
fn broken_rules_are_printed(rt: HostRuntime) -> Result<(), AllocError> {
    let (low, high) = (id(3), id(0xabc));
    let shared = DomainRule::DuplicateIndex {
        index: 3,
        low,
        high,
    };
    let outside = DomainRule::IndexOutside {
        index: 300,
        node: low,
    };
    let many = DomainRule::TooManyLinks { count: 2_070 };
    for (line, rule, text) in [
        (
            3,
            shared,
            "refused 3 13 DuplicateIndex 3 0000.0000.0003 0000.0000.0abc\n",
        ),
        (4, outside, "refused 4 14 IndexOutside 300 0000.0000.0003\n"),
        (6, many, "refused 6 19 TooManyLinks 2070\n"),
    ] {
        check_refusal(&rt, rt.alloc(), line, &Refusal::Rule(rule), text)?;
    }
    Ok(())
}

#[test]
fn counts_of_audits_are_printed(rt: HostRuntime) -> Result<(), AllocError> {
    for (version, [covered, nopath, nolist, toodeep], line) in [
        (
            3,
            [40, 0, 1, 2],
            "audit version 3 covered 40 nopath 0 nolist 1 toodeep 2\n",
        ),
        (
            65_535,
            [4, 300, 20, 1_000],
            "audit version 65535 covered 4 nopath 300 nolist 20 toodeep 1000\n",
        ),
    ] {
        let mut out = Vec::new(rt.alloc());
        put_summary(version, covered, nopath, nolist, toodeep, &mut out)?;
        expect_text(&rt, &out, line);
    }
    Ok(())
}

#[test]
fn uncovered_walks_are_printed(rt: HostRuntime) -> Result<(), AllocError> {
    for (answer, line) in [
        (Answer::NoPath, "walk uncovered nopath\n"),
        (Answer::NoList, "walk uncovered nolist\n"),
        (Answer::TooDeep { needed: 4 }, "walk uncovered toodeep 4\n"),
    ] {
        let mut out = Vec::new(rt.alloc());
        put_walk_uncovered(&answer, &mut out)?;
        expect_text(&rt, &out, line);
    }
    Ok(())
}

/// Counts that differ from sort to sort.
const COUNTS: Counts = Counts {
    covered: 40,
    nopath: 0,
    nolist: 1,
    toodeep: 2,
};

/// Appends the words of background work.
fn put_background(out: &mut Vec<u8>) -> Result<(), AllocError> {
    put_hold(65_535, out)?;
    put_watch(8, 16, 3, out)?;
    put_joined(128, out)?;
    put_joined(0, out)
}

#[test]
fn words_of_background_work_are_printed(rt: HostRuntime) -> Result<(), AllocError> {
    let mut out = Vec::new(rt.alloc());
    put_background(&mut out)?;
    let text = "hold version 65535\nwatch 8 16 from version 3\njoined 128\njoined 0\n";
    expect_text(&rt, &out, text);
    Ok(())
}

/// The report of this round has this line.
fn check_report(
    rt: &impl Abort,
    alloc: Global,
    round: Option<WatchRound>,
    line: &str,
) -> Result<(), AllocError> {
    let mut out = Vec::new(alloc);
    let report = RoundReport {
        round,
        version: 3,
        counts: COUNTS,
    };
    put_report(&report, &mut out)?;
    expect_text(rt, &out, line);
    Ok(())
}

#[test]
fn reports_are_printed(rt: HostRuntime) -> Result<(), AllocError> {
    let made = WatchRound {
        watcher: 8,
        round: 16,
    };
    for (round, line) in [
        (
            None,
            "report hold version 3 covered 40 nopath 0 nolist 1 toodeep 2\n",
        ),
        (
            Some(made),
            "report watch 8 16 version 3 covered 40 nopath 0 nolist 1 toodeep 2\n",
        ),
    ] {
        check_report(&rt, rt.alloc(), round, line)?;
    }
    Ok(())
}

/// Appends the lines of certificates that are tested or asked for.
fn put_verdicts(out: &mut Vec<u8>) -> Result<(), AllocError> {
    put_proof(1, out)?;
    put_proof(4_096, out)?;
    put_verdict(Verdict::Accepted { cost: 3 }, out)?;
    put_verdict(Verdict::Rejected(Clause::FirstRow), out)?;
    put_unproved(&Answer::NoPath, out)?;
    put_unproved(&Answer::TooDeep { needed: 4 }, out)
}

#[test]
fn verdicts_are_printed(rt: HostRuntime) -> Result<(), AllocError> {
    let mut out = Vec::new(rt.alloc());
    put_verdicts(&mut out)?;
    let text =
        "proof 1\nproof 4096\naccepted cost 3\nrejected 3\nprove uncovered nopath\nprove uncovered toodeep 4\n";
    expect_text(&rt, &out, text);
    Ok(())
}

#[test]
fn stacks_and_counts_are_printed(rt: HostRuntime) -> Result<(), AllocError> {
    let stacks = [
        StackCount {
            kind: Kind::Link,
            labels: 0,
            repairs: 12,
        },
        StackCount {
            kind: Kind::Risk,
            labels: 3,
            repairs: 1,
        },
    ];
    let mut out = Vec::new(rt.alloc());
    put_stacks(&stacks, &mut out)?;
    put_repair_counts(COUNTS, &mut out)?;
    let text =
        "labels link 0 repairs 12\nlabels risk 3 repairs 1\nrepairs covered 40 nopath 0 nolist 1 toodeep 2\n";
    expect_text(&rt, &out, text);
    Ok(())
}
