//! Lines that are commands, with their fields as they are printed.
use sr_script::{Line, LineFault, read_line};
use std::alloc::Global;
use std::process::Abort;
use std::test::Fail;

/// The command that a line is, as its fields are printed, or nothing.
fn printed(alloc: Global, read: &Result<Line, LineFault>) -> Result<String, Fail> {
    match read {
        Ok(Line::Word(command)) => Ok(format!(in alloc; "{command:?}")?),
        _ => Ok(String::new(alloc)),
    }
}

/// The line is this command, as its fields are printed.
fn expect_command(rt: &impl Abort, alloc: Global, line: &str, expected: &str) -> Result<(), Fail> {
    let read = read_line(alloc, line.as_bytes());
    let printed = printed(alloc, &read);
    drop(read);
    assert_eq!(rt; printed?.as_str(), expected, "{line:?}");
    Ok(())
}

/// The lines are these commands.
fn expect_commands(rt: &impl Abort, alloc: Global, table: &[(&str, &str)]) -> Result<(), Fail> {
    for (line, expected) in table {
        expect_command(rt, alloc, line, expected)?;
    }
    Ok(())
}

/// Edits of the database, of links and of the depth, and the words that end them.
const EDITS: [(&str, &str); 7] = [
    (
        "lsp 831bFf",
        "Lsp { octets: Seq { items: [131, 27, 255] } }",
    ),
    (
        "\tcost 0000.0000.00ff  0000.0000.00FF\t \t0000000001 16777214 \r",
        "Cost { link: LinkName { from: SystemId { value: 255 }, to: SystemId { value: 255 }, n: 1 }, metric: 16777214 }",
    ),
    (
        "down 1921.6800.1001 0000.0000.0002 65535",
        "Down { link: LinkName { from: SystemId { value: 27631269449729 }, to: SystemId { value: 2 }, n: 65535 } }",
    ),
    (
        "up 0000.0000.0001 0000.0000.0002 065535\t",
        "Up { link: LinkName { from: SystemId { value: 1 }, to: SystemId { value: 2 }, n: 65535 } }",
    ),
    ("depth 12\r", "Depth { depth: 12 }"),
    (" commit\r", "Commit"),
    ("drop ", "DropStaged"),
];

/// Questions of the net, of failures, and of loads.
const QUESTIONS: [(&str, &str); 12] = [
    (
        "dist 0000.0000.0001\t\t0000.0000.0002",
        "Dist { ends: EndNames { from: SystemId { value: 1 }, to: SystemId { value: 2 } } }",
    ),
    (
        "next  0000.0000.0001 0000.0000.0002",
        "Next { ends: EndNames { from: SystemId { value: 1 }, to: SystemId { value: 2 } } }",
    ),
    (
        "label 0000.0000.000a 0001048575",
        "Label { node: SystemId { value: 10 }, label: 1048575 }",
    ),
    (
        "spaces link 0000.0000.0001 0000.0000.0002 3 0000.0000.0004",
        "Spaces { repair: RepairName { kind: Link, link: LinkName { from: SystemId { value: 1 }, to: SystemId { value: 2 }, n: 3 }, \
        dest: SystemId { value: 4 } } }",
    ),
    (
        "repair node 0000.0000.0001 0000.0000.0002 3 0000.0000.0004",
        "Repair { repair: RepairName { kind: Node, link: LinkName { from: SystemId { value: 1 }, to: SystemId { value: 2 }, n: 3 }, \
        dest: SystemId { value: 4 } } }",
    ),
    (
        "walk 0000.0000.0001 0000.0000.0004 4294967295",
        "Walk { ends: EndNames { from: SystemId { value: 1 }, to: SystemId { value: 4 } }, choice: 4294967295 }",
    ),
    (
        "walk risk 0000.0000.0001 0000.0000.0002 3 0000.0000.0004 0",
        "WalkRepair { repair: RepairName { kind: Risk, link: LinkName { from: SystemId { value: 1 }, to: SystemId { value: 2 }, n: 3 }, \
        dest: SystemId { value: 4 } }, choice: 0 }",
    ),
    (
        "adjrepair 0000.0000.0001 0000.0000.0002 65535",
        "AdjRepair { link: LinkName { from: SystemId { value: 1 }, to: SystemId { value: 2 }, n: 65535 } }",
    ),
    (
        "adjbackup 0000.0000.0001 0000.0000.0002 65535",
        "AdjBackup { link: LinkName { from: SystemId { value: 1 }, to: SystemId { value: 2 }, n: 65535 } }",
    ),
    (
        "prove node 0000.0000.0001 0000.0000.0002 3 0000.0000.0004",
        "Prove { repair: RepairName { kind: Node, link: LinkName { from: SystemId { value: 1 }, to: SystemId { value: 2 }, n: 3 }, \
        dest: SystemId { value: 4 } } }",
    ),
    ("load 8 4", "Load { workers: 8, each: 4 }"),
    ("load 01\t1 ", "Load { workers: 1, each: 1 }"),
];

/// Words alone, words of audits and of background work, and tables of a domain.
const OTHERS: [(&str, &str); 22] = [
    ("audit", "Audit"),
    ("audit \tfull\r", "AuditFull"),
    ("hold", "Hold"),
    ("watch 8 016", "Watch { watchers: 8, rounds: 16 }"),
    ("watch 1 1", "Watch { watchers: 1, rounds: 1 }"),
    ("join", "Join"),
    ("show", "Show"),
    ("lsp \t83", "Lsp { octets: Seq { items: [131] } }"),
    ("depth 0000000000", "Depth { depth: 0 }"),
    ("nodes", "Nodes"),
    ("links\r", "Links"),
    ("\taside ", "Aside"),
    ("audit by kind", "AuditBy { grouping: Kind }"),
    ("audit  by node", "AuditBy { grouping: Node }"),
    ("audit by\tlink", "AuditBy { grouping: Link }"),
    (
        "audit by destination\r",
        "AuditBy { grouping: Destination }",
    ),
    ("audit labels", "AuditLabels"),
    (
        "repair risk 0000.0000.0001 0000.0000.0002 3",
        "RepairCase { kind: Risk, link: LinkName { from: SystemId { value: 1 }, to: SystemId { value: 2 }, n: 3 } }",
    ),
    (
        "fails node 0000.0000.0005",
        "FailsNode { node: SystemId { value: 5 } }",
    ),
    ("diff 1", "Diff { version: 1 }"),
    ("diff\t00065535 ", "Diff { version: 65535 }"),
    ("check\r", "Check"),
];

/// The lines of a certificate but its rows and labels.
const CERTIFICATES: [(&str, &str); 4] = [
    (
        "proof open risk 0000.0000.0001 0000.0000.0002 3 0000.0000.0004",
        "ProofOpen { repair: RepairName { kind: Risk, link: LinkName { from: SystemId { value: 1 }, to: SystemId { value: 2 }, n: 3 }, \
        dest: SystemId { value: 4 } } }",
    ),
    (
        "proof via 0000.0000.0001 0000.0000.0004 1",
        "ProofVia { link: LinkName { from: SystemId { value: 1 }, to: SystemId { value: 4 }, n: 1 } }",
    ),
    (
        "proof  node\t0000.0000.0003",
        "ProofNode { node: SystemId { value: 3 } }",
    ),
    (
        "proof adj 0000.0000.0003 0000.0000.0002 2",
        "ProofAdj { link: LinkName { from: SystemId { value: 3 }, to: SystemId { value: 2 }, n: 2 } }",
    ),
];

/// Rows and labels of a certificate. No walk stands as 2^62.
const ROWS: [(&str, &str); 7] = [
    (
        "proof row 0 3 2 1",
        "ProofRow { cells: Seq { items: [0, 3, 2, 1] } }",
    ),
    (
        "proof row -",
        "ProofRow { cells: Seq { items: [4611686018427387904] } }",
    ),
    (
        "proof row 8589934591 - 0000000001 \r",
        "ProofRow { cells: Seq { items: [8589934591, 4611686018427387904, 1] } }",
    ),
    (
        "proof row 11 12 13 14 15 16 17\t18  19 20",
        "ProofRow { cells: Seq { items: [11, 12, 13, 14, 15, 16, 17, 18, 19, 20] } }",
    ),
    (
        "proof done 16003 16002",
        "ProofDone { labels: Seq { items: [16003, 16002] } }",
    ),
    (
        "proof done 1048575",
        "ProofDone { labels: Seq { items: [1048575] } }",
    ),
    ("proof done none", "ProofDone { labels: Seq { items: [] } }"),
];

/// Two blocks of 32 digits, and four digits more.
const BLOCKS: (&str, &str) = (
    "lsp 00112233445566778899aAbBcCdDeEfF0123456789abcdefFEDCBA98765432107f80",
    "Lsp { octets: Seq { items: [0, 17, 34, 51, 68, 85, 102, 119, 136, 153, 170, 187, 204, 221, 238, 255, \
     1, 35, 69, 103, 137, 171, 205, 239, 254, 220, 186, 152, 118, 84, 50, 16, 127, 128] } }",
);

/// Edits and questions are read.
fn check_questions(rt: &impl Abort, alloc: Global) -> Result<(), Fail> {
    expect_commands(rt, alloc, &EDITS)?;
    expect_commands(rt, alloc, &QUESTIONS)
}

/// The other words are read.
fn check_others(rt: &impl Abort, alloc: Global) -> Result<(), Fail> {
    expect_commands(rt, alloc, &OTHERS)
}

/// The lines of a certificate are read.
fn check_certificates(rt: &impl Abort, alloc: Global) -> Result<(), Fail> {
    expect_commands(rt, alloc, &CERTIFICATES)?;
    expect_commands(rt, alloc, &ROWS)
}

#[test]
fn commands_are_read(rt: HostRuntime) -> Result<(), Fail> {
    check_questions(&rt, rt.alloc())?;
    check_others(&rt, rt.alloc())?;
    check_certificates(&rt, rt.alloc())?;
    expect_commands(&rt, rt.alloc(), &[BLOCKS])
}
