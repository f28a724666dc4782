//! The loop over the lines of a script.
ghost use Rattle.std.specs.Prelude.{◌≡◌, []};
ghost use Rattle.sr_engine.specs.Endings.{Ends};
ghost use Rattle.sr_engine.specs.Reading.{held_first, streams};
ghost use Rattle.sr_engine.specs.Replies.{Gives, ToLast};
ghost use Rattle.sr_engine.specs.Written.{written};
ghost use Rattle.sr_run.specs.Handlers.{session_conduct};

use crate::background::ScriptSession;
use sr_base::{Runtime, Sink, SinkFault, Source};
use sr_engine::{Answers, End, Fill, Script, read_on};
use sr_watch::Gate;
use std::alloc::Global;
use std::sync::ledger::Ledger;

/// Answers a last line without a line feed, where there is one, and the end of the script.
fn answer_last<R: Runtime + 'static, K: Sink, G: Gate + 'static, L: Ledger>(
    rt: &R,
    session: &mut ScriptSession<G, L>,
    number: u32,
    line: &[u8],
    out: &mut Answers,
    sink: &mut K,
) -> Result<bool, SinkFault>
    ensures { Gives (ToLast session_conduct session.old number line.now)
        (written (K.held sink.old) (K.faults sink.old) out.old)
        (written (K.held sink.new) (K.faults sink.new) out.new) result session.new }
{
    if line.is_empty() {
        return session.finish(rt, out, sink);
    }
    match session.answer(rt, number, line, out, sink) {
        Ok(refused) => match session.finish(rt, out, sink) {
            Ok(_) => Ok(refused),
            Err(fault) => Err(fault),
        },
        Err(fault) => Err(fault),
    }
}

/// Reads the lines and answers each.
fn read_all<R: Runtime + 'static, S: Source, K: Sink, G: Gate + 'static, L: Ledger>(
    rt: &R,
    session: &mut ScriptSession<G, L>,
    script: &mut Script,
    out: &mut Answers,
    source: &mut S,
    sink: &mut K,
) -> End
    requires script { script.old ≡ held_first }
    requires out { out.old ≡ [] }
    ensures { Ends session_conduct session.old
        (streams (S.left source.old) (S.faults source.old) (K.held sink.old) (K.faults sink.old) out.old)
        (streams (S.left source.new) (S.faults source.new) (K.held sink.new) (K.faults sink.new) out.new)
        result session.new }
{
    let mut number = 0u32;
    let mut refused = false;
    'steps: loop {
        match script.next() {
            Ok(true) => {
                number += 1;
                match session.answer(rt, number, script.line(), out, sink) {
                    Ok(again) => refused |= again,
                    Err(fault) => return End::at(fault),
                }
                script.clear();
            }
            Ok(false) => match read_on(script, out, source, sink) {
                Ok(Fill::More) => {}
                Ok(Fill::End) => {
                    match answer_last(rt, session, number + 1, script.line(), out, sink) {
                        Ok(again) => return out.finish(sink, refused | again),
                        Err(fault) => return End::at(fault),
                    }
                }
                Ok(Fill::Failed) => return End::ReadFailed,
                Ok(Fill::TooMuch) => return End::TooMuch,
                Err(fault) => return End::at(fault),
            },
            Err(_) => return End::Memory,
        }
    }
}

/// Runs a script: reads it from the source, and writes the session's answers to the sink.
pub(crate) fn run_script<R: Runtime + 'static, S: Source, K: Sink, G: Gate + 'static, L: Ledger>(
    rt: &R,
    alloc: Global,
    session: &mut ScriptSession<G, L>,
    source: &mut S,
    sink: &mut K,
) -> End
    ensures { Ends session_conduct session.old
        (streams (S.left source.old) (S.faults source.old) (K.held sink.old) (K.faults sink.old) [])
        (streams (S.left source.new) (S.faults source.new) (K.held sink.new) (K.faults sink.new) [])
        result session.new }
{
    let mut out = Answers::new(alloc);
    let mut script = match Script::new(alloc) {
        Ok(script) => script,
        Err(_) => return End::Memory,
    };
    read_all(rt, session, &mut script, &mut out, source, sink)
}
