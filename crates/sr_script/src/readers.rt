//! The readers of commands: what the words say that begin with each first word, but `lsp` and `proof`.
//!
//! A new word has its variant and its limits in `command.rt`, its form in `specs/Says.antt`, its place among the words
//! of `specs/FirstWords.antt`, and its reader and its line in the function of those words here. A reader of more than
//! eight words takes them from the text, as `read_list` does.

ghost use Rattle.std.specs.Prelude.{◌≡◌, ◌≢◌, true, codes, length};
ghost use Rattle.sr_script.specs.Words.{word_at};
ghost use Rattle.sr_script.specs.Says.{first_word};
ghost use Rattle.sr_script.specs.FirstWords.{is_lone, edit_words, way_words, table_words, failure_words, work_words};
ghost use Rattle.sr_script.specs.Answers.{IsCommandOf, IsReadAmong, IsReading};

use crate::argument::{
    ends_argument, grouping_argument, kind_argument, link_argument, number_argument,
    repair_argument, system_argument,
};
use crate::command::{Command, MOST_CHOICE, MOST_EACH, MOST_LABEL, MOST_WORKERS};
use crate::line::LineFault;
use crate::words::Words;
use sr_model::{MOST_DEPTH, MOST_METRIC, MOST_ROUNDS, MOST_VERSION, MOST_WATCHERS};

/// Returns the answer of the reader whose word comes first: the words have a bad form where it reads no command.
macro_rules! read_by_word {
    ($words:expr; $($first:literal => $read:expr,)*) => {
        $(
            if $words.has(0, $first) {
                return $read.ok_or(LineFault::BadForm);
            }
        )*
    };
}

/// Returns the answer of the first of these readers that knows the first word.
macro_rules! read_by_topic {
    ($words:expr; $($read:ident,)*) => {
        $(
            match $read($words) {
                Err(LineFault::UnknownWord) => {}
                answer => return answer,
            }
        )*
    };
}

/// The command, where its word stands alone. No other command begins with that word.
fn read_lone(words: &Words<'_>, command: Command) -> Option<Command>
    requires first { word_at words.now 0 ≡ first_word command }
    requires lone { is_lone command ≡ true }
    ensures { IsCommandOf words.now result }
{
    if words.len() == 1 {
        Some(command)
    } else {
        None
    }
}

/// What the words say that begin an edit, its check, or its end.
fn read_edit(words: &Words<'_>) -> Result<Command, LineFault>
    ensures { IsReadAmong edit_words words.now result }
{
    read_by_word! { words;
        b"cost" => read_cost(words),
        b"down" => read_down(words),
        b"up" => read_up(words),
        b"depth" => read_depth(words),
        b"check" => read_lone(words, Command::Check),
        b"commit" => read_lone(words, Command::Commit),
        b"drop" => read_lone(words, Command::DropStaged),
    }
    Err(LineFault::UnknownWord)
}

/// What the words say that begin a question of ways and of what is on them.
fn read_way(words: &Words<'_>) -> Result<Command, LineFault>
    ensures { IsReadAmong way_words words.now result }
{
    read_by_word! { words;
        b"dist" => read_dist(words),
        b"next" => read_next(words),
        b"label" => read_label(words),
        b"walk" => read_walk(words),
        b"load" => read_load(words),
    }
    Err(LineFault::UnknownWord)
}

/// What the words say that begin a question of the domain's tables.
fn read_table(words: &Words<'_>) -> Result<Command, LineFault>
    ensures { IsReadAmong table_words words.now result }
{
    read_by_word! { words;
        b"show" => read_lone(words, Command::Show),
        b"nodes" => read_lone(words, Command::Nodes),
        b"links" => read_lone(words, Command::Links),
        b"aside" => read_lone(words, Command::Aside),
    }
    Err(LineFault::UnknownWord)
}

/// What the words say that begin a question of one failure.
fn read_failure(words: &Words<'_>) -> Result<Command, LineFault>
    ensures { IsReadAmong failure_words words.now result }
{
    read_by_word! { words;
        b"spaces" => read_spaces(words),
        b"repair" => read_repair(words),
        b"adjrepair" => read_adjrepair(words),
        b"adjbackup" => read_adjbackup(words),
        b"prove" => read_prove(words),
        b"why" => read_why(words),
    }
    Err(LineFault::UnknownWord)
}

/// What the words say that begin a question of all cases, or work beside the script.
fn read_work(words: &Words<'_>) -> Result<Command, LineFault>
    ensures { IsReadAmong work_words words.now result }
{
    read_by_word! { words;
        b"audit" => read_audit(words),
        b"fails" => read_fails(words),
        b"diff" => read_diff(words),
        b"hold" => read_lone(words, Command::Hold),
        b"watch" => read_watch(words),
        b"join" => read_lone(words, Command::Join),
    }
    Err(LineFault::UnknownWord)
}

/// The command that the words say: the first of them may be unknown, or the words have no form of a command. `lsp` and
/// `proof` are read elsewhere.
#[tactic(auto, using(crate::proofs::FirstWords::known_begins))]
pub(crate) fn read_command(words: &Words<'_>) -> Result<Command, LineFault>
    requires no_octets { word_at words.now 0 ≢ codes "lsp" }
    requires no_proof { word_at words.now 0 ≢ codes "proof" }
    ensures { IsReading words.now result }
{
    read_by_topic! { words; read_edit, read_way, read_table, read_failure, }
    read_work(words)
}

/// `cost A B n M`
fn read_cost(words: &Words<'_>) -> Option<Command>
    requires { word_at words.now 0 ≡ codes "cost" }
    ensures { IsCommandOf words.now result }
{
    if words.len() != 5 {
        return None;
    }
    let link = link_argument(words, 1)?;
    let metric = number_argument(words, 4, 1, MOST_METRIC)?;
    Some(Command::Cost { link, metric })
}

/// `down A B n`
fn read_down(words: &Words<'_>) -> Option<Command>
    requires { word_at words.now 0 ≡ codes "down" }
    ensures { IsCommandOf words.now result }
{
    if words.len() != 4 {
        return None;
    }
    let link = link_argument(words, 1)?;
    Some(Command::Down { link })
}

/// `up A B n`
fn read_up(words: &Words<'_>) -> Option<Command>
    requires { word_at words.now 0 ≡ codes "up" }
    ensures { IsCommandOf words.now result }
{
    if words.len() != 4 {
        return None;
    }
    let link = link_argument(words, 1)?;
    Some(Command::Up { link })
}

/// `depth K`
fn read_depth(words: &Words<'_>) -> Option<Command>
    requires { word_at words.now 0 ≡ codes "depth" }
    ensures { IsCommandOf words.now result }
{
    if words.len() != 2 {
        return None;
    }
    let depth = number_argument(words, 1, 0, MOST_DEPTH as u32)?;
    Some(Command::Depth { depth: depth as u8 })
}

/// `dist A B`
fn read_dist(words: &Words<'_>) -> Option<Command>
    requires { word_at words.now 0 ≡ codes "dist" }
    ensures { IsCommandOf words.now result }
{
    if words.len() != 3 {
        return None;
    }
    let ends = ends_argument(words, 1)?;
    Some(Command::Dist { ends })
}

/// `next A B`
fn read_next(words: &Words<'_>) -> Option<Command>
    requires { word_at words.now 0 ≡ codes "next" }
    ensures { IsCommandOf words.now result }
{
    if words.len() != 3 {
        return None;
    }
    let ends = ends_argument(words, 1)?;
    Some(Command::Next { ends })
}

/// `label A X`
fn read_label(words: &Words<'_>) -> Option<Command>
    requires { word_at words.now 0 ≡ codes "label" }
    ensures { IsCommandOf words.now result }
{
    if words.len() != 3 {
        return None;
    }
    let node = system_argument(words, 1)?;
    let label = number_argument(words, 2, 0, MOST_LABEL)?;
    Some(Command::Label { node, label })
}

/// `spaces KIND A B n D`
fn read_spaces(words: &Words<'_>) -> Option<Command>
    requires { word_at words.now 0 ≡ codes "spaces" }
    ensures { IsCommandOf words.now result }
{
    if words.len() != 6 {
        return None;
    }
    let repair = repair_argument(words, 1)?;
    Some(Command::Spaces { repair })
}

/// `repair KIND A B n D`, or `repair KIND A B n`
fn read_repair(words: &Words<'_>) -> Option<Command>
    requires { word_at words.now 0 ≡ codes "repair" }
    ensures { IsCommandOf words.now result }
{
    match words.len() {
        5 => {
            let kind = kind_argument(words, 1)?;
            let link = link_argument(words, 2)?;
            Some(Command::RepairCase { kind, link })
        }
        6 => {
            let repair = repair_argument(words, 1)?;
            Some(Command::Repair { repair })
        }
        _ => None,
    }
}

/// `adjrepair A B n`
fn read_adjrepair(words: &Words<'_>) -> Option<Command>
    requires { word_at words.now 0 ≡ codes "adjrepair" }
    ensures { IsCommandOf words.now result }
{
    if words.len() != 4 {
        return None;
    }
    let link = link_argument(words, 1)?;
    Some(Command::AdjRepair { link })
}

/// `walk A D K`, or `walk KIND A B n D K`
fn read_walk(words: &Words<'_>) -> Option<Command>
    requires { word_at words.now 0 ≡ codes "walk" }
    ensures { IsCommandOf words.now result }
{
    match words.len() {
        4 => {
            let ends = ends_argument(words, 1)?;
            let choice = number_argument(words, 3, 0, MOST_CHOICE)?;
            Some(Command::Walk { ends, choice })
        }
        7 => {
            let repair = repair_argument(words, 1)?;
            let choice = number_argument(words, 6, 0, MOST_CHOICE)?;
            Some(Command::WalkRepair { repair, choice })
        }
        _ => None,
    }
}

/// `load W K`
fn read_load(words: &Words<'_>) -> Option<Command>
    requires { word_at words.now 0 ≡ codes "load" }
    ensures { IsCommandOf words.now result }
{
    if words.len() != 3 {
        return None;
    }
    let workers = number_argument(words, 1, 1, MOST_WORKERS)?;
    let each = number_argument(words, 2, 1, MOST_EACH)?;
    Some(Command::Load { workers, each })
}

/// `prove KIND A B n D`
fn read_prove(words: &Words<'_>) -> Option<Command>
    requires { word_at words.now 0 ≡ codes "prove" }
    ensures { IsCommandOf words.now result }
{
    if words.len() != 6 {
        return None;
    }
    let repair = repair_argument(words, 1)?;
    Some(Command::Prove { repair })
}

/// `why KIND A B n D`
fn read_why(words: &Words<'_>) -> Option<Command>
    requires { word_at words.now 0 ≡ codes "why" }
    ensures { IsCommandOf words.now result }
{
    if words.len() != 6 {
        return None;
    }
    let repair = repair_argument(words, 1)?;
    Some(Command::Why { repair })
}

/// `audit by GROUPING`
fn read_audit_by(words: &Words<'_>) -> Option<Command>
    requires first { word_at words.now 0 ≡ codes "audit" }
    requires count { length words.now ≡ 3 }
    ensures { IsCommandOf words.now result }
{
    if !words.has(1, b"by") {
        return None;
    }
    let grouping = grouping_argument(words, 2)?;
    Some(Command::AuditBy { grouping })
}

/// `audit`, `audit full`, `audit labels`, or `audit by GROUPING`
fn read_audit(words: &Words<'_>) -> Option<Command>
    requires { word_at words.now 0 ≡ codes "audit" }
    ensures { IsCommandOf words.now result }
{
    match words.len() {
        1 => Some(Command::Audit),
        2 if words.has(1, b"full") => Some(Command::AuditFull),
        2 if words.has(1, b"labels") => Some(Command::AuditLabels),
        3 => read_audit_by(words),
        _ => None,
    }
}

/// `fails node F`
fn read_fails(words: &Words<'_>) -> Option<Command>
    requires { word_at words.now 0 ≡ codes "fails" }
    ensures { IsCommandOf words.now result }
{
    if words.len() != 3 || !words.has(1, b"node") {
        return None;
    }
    let node = system_argument(words, 2)?;
    Some(Command::FailsNode { node })
}

/// `diff V`
fn read_diff(words: &Words<'_>) -> Option<Command>
    requires { word_at words.now 0 ≡ codes "diff" }
    ensures { IsCommandOf words.now result }
{
    if words.len() != 2 {
        return None;
    }
    let version = number_argument(words, 1, 1, MOST_VERSION)?;
    Some(Command::Diff { version })
}

/// `watch T R`
fn read_watch(words: &Words<'_>) -> Option<Command>
    requires { word_at words.now 0 ≡ codes "watch" }
    ensures { IsCommandOf words.now result }
{
    if words.len() != 3 {
        return None;
    }
    let watchers = number_argument(words, 1, 1, MOST_WATCHERS)?;
    let rounds = number_argument(words, 2, 1, MOST_ROUNDS)?;
    Some(Command::Watch { watchers, rounds })
}

/// `adjbackup A B n`
fn read_adjbackup(words: &Words<'_>) -> Option<Command>
    requires { word_at words.now 0 ≡ codes "adjbackup" }
    ensures { IsCommandOf words.now result }
{
    if words.len() != 4 {
        return None;
    }
    let link = link_argument(words, 1)?;
    Some(Command::AdjBackup { link })
}
