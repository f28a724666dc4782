//! Reads the lines of a script.
ghost use Rattle.std.specs.Prelude.{◌≡◌, ◌<◌, ◌≤◌, ◌++◌, ℕ, List, [], false, IfOk, OnOk, MatchResult, length, take};
ghost use Rattle.std.specs.Io.KnownBytes.{Consumes, Keeps, IsAtEnd};
ghost use Rattle.sr_base.specs.Faults.{HasCause};
ghost use Rattle.sr_engine.specs.Reading.{Fills, Held, NextIs, ReadsOn, held_after, held_first, streams, supply};
ghost use Rattle.sr_engine.specs.Lines.{head_of};

use crate::answers::Answers;
use memchr::memchr;
use sr_base::{Failed, Sink, SinkFault, Source};
use std::alloc::{AllocError, Global};
use std::marker::Model;

/// The most bytes that a line may have, a carriage return counted.
pub const LONGEST_LINE: usize = 140_000;

/// The most bytes that a script may have.
const MOST_BYTES: u32 = 33_554_432;

/// The bytes that one read asks for.
const PIECE: usize = 65_536;

/// What a read gave.
#[derive(Debug, Drop, Clone, Copy)]
pub enum Fill {
    /// More bytes came.
    More,
    /// The source is at its end.
    End,
    /// The read failed.
    Failed,
    /// A byte too many came before, and nothing was read.
    TooMuch,
}

/// A reader of the lines of a script. Contracts see it as a `Held`.
///
/// Beside a piece it holds the first 140,001 bytes of a line, by which a line that is longer than the 140,000 bytes that
/// it may have shows as such. A line that lies whole in the piece isn't copied.
#[derive(Drop)]
pub struct Script {
    piece: Vec<u8>,
    at: usize,
    end: usize,
    from: usize,
    to: usize,
    lent: bool,
    line: Vec<u8>,
    taken: u32,
}

impl Model for Script {
    ghost use Rattle.std.specs.Prelude.{◌≡◌, ◌≤◌, ◌-◌, ◌<◌, take, drop};
    ghost use Rattle.std.specs.Vec.{vec_len};
    ghost use Rattle.sr_engine.specs.Reading.{Held, line_in, piece_bytes};

    ghost Value = { Held };

    ghost view = { λ s. record {
      line = line_in s.lent (take (s.to - s.from) (drop s.from s.piece.items)) s.line.items;
      unread = take (s.end - s.at) (drop s.at s.piece.items);
      taken = s.taken;
      lent = s.lent;
    } };

    ghost invariant = { λ s. (s.at ≤ s.end) × (s.end ≤ vec_len s.piece) × (0 < vec_len s.piece)
        × (vec_len s.piece ≤ piece_bytes) × (s.from ≤ s.to) × (s.to ≤ vec_len s.piece) };
}

/// Adds to what is held of a line, as far as a line that is too long shows.
fn keep(kept: &mut Vec<u8>, more: &[u8]) -> Result<(), AllocError>
    ensures { OnOk result ((rest : List ℕ) → kept.old.items ≡ head_of rest
        → kept.new.items ≡ head_of (rest ++ more.now)) }
{
    let room = (LONGEST_LINE + 1).saturating_sub(kept.len());
    let count = room.min(more.len());
    kept.extend_from_slice(&more[..count])?;
    Ok(())
}

/// Reads at most `most` bytes into the front of the buffer.
fn read_front<S: Source>(source: &mut S, buffer: &mut [u8], most: usize) -> Result<usize, Failed>
    requires { (0 < most) × (most ≤ length buffer.old) }
    ensures len { length buffer.new ≡ length buffer.old }
    ensures few { IfOk result (λ count. count ≤ most) }
    ensures bytes { MatchResult result
        (λ count. Consumes (S.left source.old) (S.left source.new) (take count buffer.new)
        × (count ≡ 0 → IsAtEnd (S.left source.new)))
        (λ _. Keeps (S.left source.old) (S.left source.new)) }
    ensures cause { HasCause (S.faults source.old) (S.faults source.new) result }
{
    source.read(&mut buffer[..most])
}

impl Script {
    /// A reader that has taken nothing.
    pub fn new(alloc: Global) -> Result<Script, AllocError>
        ensures { IfOk result (λ (s : Held). s ≡ held_first) }
    {
        let piece = vec![in alloc; 0u8; PIECE]?;
        Ok(Script {
            piece,
            at: 0,
            end: 0,
            from: 0,
            to: 0,
            lent: false,
            line: Vec::new(alloc),
            taken: 0,
        })
    }

    /// The head of the line that came last, or that goes on.
    pub fn line(&self) -> &[u8]
        ensures { result.now ≡ self.now.line }
    {
        if self.lent {
            &self.piece[self.from..self.to]
        } else {
            self.line.as_slice()
        }
    }

    /// Lets the line go that came last.
    pub fn clear(&mut self)
        ensures { self.new ≡ held_after self.old }
    {
        self.lent = false;
        self.line.clear();
    }

    /// Goes on to the next line feed that was taken, and says whether there is one. After an `Err` the run ends.
    pub fn next(&mut self) -> Result<bool, AllocError>
        requires { self.old.lent ≡ false }
        ensures { IfOk result (λ found. NextIs self.old self.new found) }
    {
        let unread = &self.piece[self.at..self.end];
        match memchr(b'\n', unread) {
            Some(count) => {
                if self.line.as_slice().is_empty() {
                    self.from = self.at;
                    self.to = self.at + count;
                    self.lent = true;
                    self.at += count + 1;
                    return Ok(true);
                }
                keep(&mut self.line, &unread[..count])?;
                self.at += count + 1;
                Ok(true)
            }
            None => {
                keep(&mut self.line, unread)?;
                self.at = self.end;
                Ok(false)
            }
        }
    }

    /// Reads on, where all that was taken was looked at: at most 65,536 bytes, and none past the first one too many.
    fn fill<S: Source>(&mut self, source: &mut S) -> Fill
        requires looked { self.old.unread ≡ [] }
        requires spent { self.old.lent ≡ false }
        ensures { Fills (supply (S.left source.old) (S.faults source.old))
            (supply (S.left source.new) (S.faults source.new)) self.old self.new result }
    {
        self.at = 0;
        self.end = 0;
        if self.taken > MOST_BYTES {
            return Fill::TooMuch;
        }
        let room = self.piece.len().min((MOST_BYTES + 1 - self.taken) as usize);
        match read_front(source, &mut self.piece, room) {
            Ok(0) => Fill::End,
            Ok(count) => {
                self.end = count.min((MOST_BYTES - self.taken) as usize);
                self.taken += count as u32;
                Fill::More
            }
            Err(_) => Fill::Failed,
        }
    }
}

/// Writes what is gathered, and then reads on: it is the only way to read, so the source is never read before each line
/// that was taken is answered and its answer is in the sink.
pub fn read_on<S: Source, K: Sink>(
    script: &mut Script,
    out: &mut Answers,
    source: &mut S,
    sink: &mut K,
) -> Result<Fill, SinkFault>
    requires looked { script.old.unread ≡ [] }
    requires spent { script.old.lent ≡ false }
    ensures { ReadsOn
        (streams (S.left source.old) (S.faults source.old) (K.held sink.old) (K.faults sink.old) out.old)
        (streams (S.left source.new) (S.faults source.new) (K.held sink.new) (K.faults sink.new) out.new)
        script.old script.new result }
{
    match out.flush(sink) {
        Ok(()) => Ok(script.fill(source)),
        Err(fault) => Err(fault),
    }
}
