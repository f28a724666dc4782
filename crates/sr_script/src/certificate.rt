//! The readers of `proof`: certificates, line by line.

ghost use Rattle.std.specs.Prelude.{◌≡◌, ◌≢◌, ◌↔◌, IsTrue, IfOk, IfErr, codes, length};
ghost use Rattle.sr_script.specs.Words.{words as words_in, word_at};
ghost use Rattle.sr_script.specs.Says.{SaysCommand};
ghost use Rattle.sr_script.specs.Answers.{IsCommandOf, IsFormFault};

use crate::argument::{link_argument, repair_argument, system_argument};
use crate::command::{Command, MOST_CELLS, MOST_LABELS};
use crate::cursor::text_behind;
use crate::line::LineFault;
use crate::listed::read_list;
use crate::words::Words;
use sr_seq::Seq;
use std::alloc::Global;

/// `proof row V V ..`
fn read_row(alloc: Global, text: &[u8], words: &Words<'_>) -> Result<Command, LineFault>
    requires whole { words.now ≡ words_in text.now }
    requires first { word_at words.now 0 ≡ codes "proof" }
    requires second { word_at words.now 1 ≡ codes "row" }
    ensures said { IfOk result (SaysCommand words.now) }
    ensures refused { IfErr result (IsFormFault words.now) }
{
    if words.len() < 3 {
        return Err(LineFault::BadForm);
    }
    match read_list(alloc, text_behind(text, 2), MOST_CELLS) {
        Ok(cells) => Ok(Command::ProofRow { cells }),
        Err(fault) => Err(fault),
    }
}

/// Whether `none` stands alone in the place of labels.
fn has_no_labels(words: &Words<'_>) -> bool
    ensures { IsTrue result ↔ (length words.now ≡ 3) × (word_at words.now 2 ≡ codes "none") }
{
    words.len() == 3 && words.has(2, b"none")
}

/// `proof done X X ..`, or `proof done none`
fn read_done(alloc: Global, text: &[u8], words: &Words<'_>) -> Result<Command, LineFault>
    requires whole { words.now ≡ words_in text.now }
    requires first { word_at words.now 0 ≡ codes "proof" }
    requires second { word_at words.now 1 ≡ codes "done" }
    ensures said { IfOk result (SaysCommand words.now) }
    ensures refused { IfErr result (IsFormFault words.now) }
{
    if words.len() < 3 {
        return Err(LineFault::BadForm);
    }
    if has_no_labels(words) {
        return Ok(Command::ProofDone {
            labels: Seq::empty(alloc),
        });
    }
    match read_list(alloc, text_behind(text, 2), MOST_LABELS) {
        Ok(labels) => Ok(Command::ProofDone { labels }),
        Err(fault) => Err(fault),
    }
}

/// `proof open KIND A B n D`
fn read_open(words: &Words<'_>) -> Option<Command>
    requires first { word_at words.now 0 ≡ codes "proof" }
    requires second { word_at words.now 1 ≡ codes "open" }
    ensures { IsCommandOf words.now result }
{
    if words.len() != 7 {
        return None;
    }
    let repair = repair_argument(words, 2)?;
    Some(Command::ProofOpen { repair })
}

/// `proof via A B n`
fn read_via(words: &Words<'_>) -> Option<Command>
    requires first { word_at words.now 0 ≡ codes "proof" }
    requires second { word_at words.now 1 ≡ codes "via" }
    ensures { IsCommandOf words.now result }
{
    if words.len() != 5 {
        return None;
    }
    let link = link_argument(words, 2)?;
    Some(Command::ProofVia { link })
}

/// `proof node A`
fn read_node(words: &Words<'_>) -> Option<Command>
    requires first { word_at words.now 0 ≡ codes "proof" }
    requires second { word_at words.now 1 ≡ codes "node" }
    ensures { IsCommandOf words.now result }
{
    if words.len() != 3 {
        return None;
    }
    let node = system_argument(words, 2)?;
    Some(Command::ProofNode { node })
}

/// `proof adj A B n`
fn read_adj(words: &Words<'_>) -> Option<Command>
    requires first { word_at words.now 0 ≡ codes "proof" }
    requires second { word_at words.now 1 ≡ codes "adj" }
    ensures { IsCommandOf words.now result }
{
    if words.len() != 5 {
        return None;
    }
    let link = link_argument(words, 2)?;
    Some(Command::ProofAdj { link })
}

/// The line of a certificate that isn't a row or its end.
fn read_part(words: &Words<'_>) -> Option<Command>
    requires first { word_at words.now 0 ≡ codes "proof" }
    requires no_row { word_at words.now 1 ≢ codes "row" }
    requires no_end { word_at words.now 1 ≢ codes "done" }
    ensures { IsCommandOf words.now result }
{
    if words.has(1, b"open") {
        read_open(words)
    } else if words.has(1, b"via") {
        read_via(words)
    } else if words.has(1, b"node") {
        read_node(words)
    } else if words.has(1, b"adj") {
        read_adj(words)
    } else {
        None
    }
}

/// What the words of `proof` say. The text is that of the words: those behind the eighth are read from there.
pub(crate) fn read_proof(
    alloc: Global,
    text: &[u8],
    words: &Words<'_>,
) -> Result<Command, LineFault>
    requires whole { words.now ≡ words_in text.now }
    requires first { word_at words.now 0 ≡ codes "proof" }
    ensures said { IfOk result (SaysCommand words.now) }
    ensures refused { IfErr result (IsFormFault words.now) }
{
    if words.has(1, b"row") {
        return read_row(alloc, text, words);
    }
    if words.has(1, b"done") {
        return read_done(alloc, text, words);
    }
    match read_part(words) {
        Some(command) => Ok(command),
        None => Err(LineFault::BadForm),
    }
}
