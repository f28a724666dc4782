//! The task that the words ask for.

ghost use Rattle.std.specs.Prelude.{◌≡◌, ◌↔◌, string_bytes, IsTrue, IfOk, IfErr};
ghost use Rattle.sr_words.specs.Tasks.{BeginWithMake, IsTaskOf};

use crate::making::given_numbers;
use std::alloc::{AllocError, Global};

/// What the program can be asked to do.
#[derive(Debug, Drop, Clone, Copy, PartialEq, Eq)]
pub enum AskedTask {
    /// `run`: answers the script that the source gives.
    Run,
    /// `make --nodes N --start S`: writes a script for a domain of N nodes, made from the number S.
    Make { nodes: u16, start: u32 },
}

/// Whether the word has these bytes.
fn is_word(word: &String, bytes: &[u8]) -> bool
    ensures { IsTrue result ↔ (string_bytes word.now ≡ bytes.now) }
{
    word.as_bytes() == bytes
}

/// The task that the words ask for, and None exactly where they ask for none (this project's rule). Where memory runs
/// out it isn't known, which only words that begin with `make` can meet.
pub fn task_of(alloc: Global, words: &[String]) -> Result<Option<AskedTask>, AllocError>
    ensures task { IfOk result (IsTaskOf words.now) }
    ensures refused { IfErr result (λ _. BeginWithMake words.now) }
{
    let Some((first, rest)) = words.split_first() else {
        return Ok(None);
    };
    if is_word(first, b"run") && rest.is_empty() {
        return Ok(Some(AskedTask::Run));
    }
    if !is_word(first, b"make") {
        return Ok(None);
    }
    match given_numbers(alloc, rest)? {
        Some((nodes, start)) => Ok(Some(AskedTask::Make { nodes, start })),
        None => Ok(None),
    }
}
