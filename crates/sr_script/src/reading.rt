//! Reads a line.

ghost use Rattle.std.specs.Prelude.{◌≡◌, ◌↔◌, false, true, IsTrue, IfOk, IfErr, MatchOption, codes};
ghost use Rattle.sr_script.specs.Words.{words as words_in, word_at};
ghost use Rattle.sr_script.specs.Answers.{IsQuestionOf};
ghost use Rattle.sr_script.specs.Says.{is_question};
ghost use Rattle.sr_script.specs.LineSays.{IsRemark, SayNothing, LineSays, IsLineFault, WordsSay, IsWordsFault};

use crate::blank::without_return;
use crate::certificate::read_proof;
use crate::command::Command;
use crate::cursor::text_behind;
use crate::hexadecimal::read_octets;
use crate::line::{Line, LineFault};
use crate::readers::read_command;
use crate::words::Words;
use sr_engine::LONGEST_LINE;
use std::alloc::Global;

/// What the words of `lsp` say.
fn read_lsp_words(alloc: Global, words: &Words<'_>) -> Result<Line, LineFault>
    requires { word_at words.now 0 ≡ codes "lsp" }
    ensures said { IfOk result (WordsSay words.now) }
    ensures refused { IfErr result (IsWordsFault words.now) }
{
    if words.len() != 2 {
        return Err(LineFault::BadForm);
    }
    match read_octets(alloc, words.get(1)) {
        Ok(octets) => Ok(Line::Word(Command::Lsp { octets })),
        Err(fault) => Err(fault),
    }
}

/// What the words of `proof` say.
fn read_proof_words(alloc: Global, text: &[u8], words: &Words<'_>) -> Result<Line, LineFault>
    requires whole { words.now ≡ words_in text.now }
    requires first { word_at words.now 0 ≡ codes "proof" }
    ensures said { IfOk result (WordsSay words.now) }
    ensures refused { IfErr result (IsWordsFault words.now) }
{
    match read_proof(alloc, text, words) {
        Ok(command) => Ok(Line::Word(command)),
        Err(fault) => Err(fault),
    }
}

/// The command, where it is a question.
fn question(command: Command) -> Option<Command>
    ensures { MatchOption result (is_question command ≡ false)
        (λ found. (found ≡ command) × (is_question found ≡ true)) }
{
    if command.is_question() {
        Some(command)
    } else {
        None
    }
}

/// The question that the words say.
fn read_question(words: &Words<'_>) -> Option<Command>
    ensures { IsQuestionOf words.now result }
{
    if words.has(0, b"lsp") {
        return None;
    }
    if words.has(0, b"proof") {
        return None;
    }
    match read_command(words) {
        Ok(command) => question(command),
        Err(_) => None,
    }
}

/// What the words of `try` say.
fn read_try_words(text: &[u8], words: &Words<'_>) -> Result<Line, LineFault>
    requires whole { words.now ≡ words_in text.now }
    requires first { word_at words.now 0 ≡ codes "try" }
    ensures said { IfOk result (WordsSay words.now) }
    ensures refused { IfErr result (IsWordsFault words.now) }
{
    match read_question(&Words::of(text_behind(text, 1))) {
        Some(question) => Ok(Line::Try(question)),
        None => Err(LineFault::BadForm),
    }
}

/// Whether the word begins a remark.
fn is_remark(word: &[u8]) -> bool
    ensures { IsTrue result ↔ IsRemark word.now }
{
    !word.is_empty() && word[0] == b'#'
}

/// Whether there are no words, or the first begins a remark.
fn says_nothing(words: &Words<'_>) -> bool
    ensures { IsTrue result ↔ SayNothing words.now }
{
    words.len() == 0 || is_remark(words.get(0))
}

/// What the words of the text say.
fn read_words(alloc: Global, text: &[u8], words: &Words<'_>) -> Result<Line, LineFault>
    requires { words.now ≡ words_in text.now }
    ensures said { IfOk result (WordsSay words.now) }
    ensures refused { IfErr result (IsWordsFault words.now) }
{
    if says_nothing(words) {
        return Ok(Line::Nothing);
    }
    if words.has(0, b"lsp") {
        return read_lsp_words(alloc, words);
    }
    if words.has(0, b"proof") {
        return read_proof_words(alloc, text, words);
    }
    if words.has(0, b"try") {
        return read_try_words(text, words);
    }
    match read_command(words) {
        Ok(command) => Ok(Line::Word(command)),
        Err(fault) => Err(fault),
    }
}

/// What a line says, or why it is refused: the first of these faults. It is too long, of more than 140,000 bytes; its
/// first word is unknown; its words have no form of a command; the word after `lsp` isn't pairs of hexadecimal digits.
/// Out of memory is an answer to any line.
pub fn read_line(alloc: Global, line: &[u8]) -> Result<Line, LineFault>
    ensures said { IfOk result (LineSays line.now) }
    ensures refused { IfErr result (IsLineFault line.now) }
{
    if line.len() > LONGEST_LINE {
        return Err(LineFault::TooLong);
    }
    // Many scripts have empty lines, and these need no words.
    if line.is_empty() {
        return Ok(Line::Nothing);
    }
    let text = without_return(line);
    let words = Words::of(text);
    read_words(alloc, text, &words)
}
