//! `tilfa run` reads a script from standard input, and writes the answers to standard output. `tilfa make` writes a script
//! there that is made from two numbers.
#![tactic(auto)]

ghost use Rattle.std.specs.Prelude.{◌≡◌, ◌<◌, ◌⊎◌, IfErr};
ghost use Rattle.std.specs.Process.{exit_status};
ghost use Rattle.sr_engine.specs.Endings.{devices_of};
ghost use Rattle.sr_run.specs.Program.{RunsThrough, RunsTo};
ghost use Rattle.sr_run.specs.Usage.{lent_of};

use sr_base::{Runtime, Sink, Source, StdSink, StdSource};
use sr_run::{Ended, tilfa};
use sr_spf::Steps;
use sr_store::Usage;
use sr_watch::{Gate, OpenGate};
use std::alloc::AllocGlobal;
use std::env;
use std::io::ErrorKind;
use std::marker::Brand;
use std::process::ExitCode;
use std::sync::Arc;
use std::sync::ledger::{Blank, Ledger};

/// The status where the words aren't a command.
const NO_COMMAND: u8 = 2;

/// The status where a read failed.
const READ_FAILED: u8 = 3;

/// The status where a write failed.
const WRITE_FAILED: u8 = 4;

/// The status where memory ran out, or the words can't be had.
const NO_MEMORY: u8 = 5;

/// The status where the script has too many bytes.
const TOO_MUCH: u8 = 6;

/// The words after the program's name, or the status that says why there are none: words that aren't text are no command,
/// and any other failure ends as if memory had run out. Which of the two statuses it is isn't proved: no contract of the
/// library says what kind of error `env::args` answers.
fn words(rt: &HostRuntime) -> Result<Vec<String>, u8>
    ensures { IfErr result (λ status. (status ≡ 2) ⊎ (status ≡ 5)) }
{
    let args = match env::args(rt) {
        Ok(args) => args,
        Err(error) => {
            return Err(match error.kind() {
                ErrorKind::InvalidData => NO_COMMAND,
                _ => NO_MEMORY,
            });
        }
    };
    let mut words = Vec::new(rt.alloc());
    for word in args.skip(1) {
        match words.push(word) {
            Ok(()) => {}
            Err(_) => return Err(NO_MEMORY),
        }
    }
    Ok(words)
}

/// How the program ends, and the counter of searches, which is given back.
#[derive(Drop)]
struct Exit<L: Ledger> {
    code: ExitCode,
    steps: Steps<L>,
}

/// Does what the words say, and ends with the status that this has.
fn run<R: AllocGlobal + Runtime + 'static, S: Source, K: Sink, G: Gate + 'static, L: Ledger>(
    rt: &R,
    words: &[String],
    source: &mut S,
    sink: &mut K,
    gate: &Arc<G>,
    usage: &mut Usage,
    steps: Steps<L>,
) -> Exit<L>
    ensures outcome { RunsTo words.now
        (devices_of (S.left source.old) (K.held sink.old) (S.faults source.old) (K.faults sink.old))
        (devices_of (S.left source.new) (K.held sink.new) (S.faults source.new) (K.faults sink.new))
        (lent_of usage.old steps) (lent_of usage.new result.steps) (exit_status result.code) }
    ensures completes { RunsThrough words.now
        (devices_of (S.left source.old) (K.held sink.old) (S.faults source.old) (K.faults sink.old))
        (devices_of (S.left source.new) (K.held sink.new) (S.faults source.new) (K.faults sink.new))
        (exit_status result.code) }
{
    let Ended { status, steps } = tilfa(rt, words, source, sink, gate, usage, steps);
    Exit {
        code: ExitCode::from(status),
        steps,
    }
}

/// Does what the words say with a usage and a counter of searches that begin at 0, and lets both go.
fn run_counted<L: Ledger>(
    rt: &(impl AllocGlobal + Runtime + 'static),
    words: &[String],
    source: &mut impl Source,
    sink: &mut impl Sink,
    gate: &Arc<impl Gate + 'static>,
    blank: Blank,
) -> ExitCode
    requires name { blank.name ≡ L.name }
    requires parts { (blank.parts ≡ L.parts) × (0 < L.parts) }
{
    let mut usage = Usage::new();
    let steps = Steps::<L>::new(blank);
    let Exit {
        code,
        steps: _counted,
    } = run(rt, words, source, sink, gate, &mut usage, steps);
    code
}

/// Tells on standard error why a run wasn't begun, or ended early. A message that can't be written changes nothing: the
/// status says it too.
fn tell(rt: &HostRuntime, code: ExitCode) {
    if code == ExitCode::from(NO_COMMAND) {
        let _ = eprintln!(rt; "usage: tilfa run | tilfa make --nodes N --start S");
    }
    if code == ExitCode::from(READ_FAILED) {
        let _ = eprintln!(rt;
            "tilfa: standard input can't be read; the lines that were read are answered"
        );
    }
    if code == ExitCode::from(WRITE_FAILED) {
        let _ = eprintln!(rt; "tilfa: standard output can't be written; the output ends early");
    }
    if code == ExitCode::from(NO_MEMORY) {
        let _ = eprintln!(rt; "tilfa: memory ran out; the output ends early");
    }
    if code == ExitCode::from(TOO_MUCH) {
        let _ = eprintln!(rt;
            "tilfa: the script has more than 33,554,432 bytes; the lines among the first of them are answered"
        );
    }
}

fn main(rt: HostRuntime) -> ExitCode {
    let code = match words(&rt) {
        Ok(words) => {
            match Arc::new(rt.alloc(), OpenGate) {
                Ok(gate) => {
                    let mut source = StdSource::new(rt.stdin());
                    let mut sink = StdSink::new(rt.stdout());
                    run_counted::<Brand>(
                        &rt,
                        words.as_slice(),
                        &mut source,
                        &mut sink,
                        &gate,
                        Blank::new(1),
                    )
                }
                Err(_) => ExitCode::from(NO_MEMORY),
            }
        }
        Err(status) => ExitCode::from(status),
    };
    tell(&rt, code);
    code
}
