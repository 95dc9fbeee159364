//! The load, run in a world of its own.

ghost use Rattle.std.specs.Prelude.{◌≡◌, ◌≢◌, ◌≤◌, ◌==◌, false, ◌-◌, [], ◌∷◌, Some, IfOk, IfErr, IfSome, Option, if◌then◌else◌};
ghost use Rattle.hex.specs.Hex.{encode_lower};
ghost use Rattle.load_maker.specs.Load.{load};
ghost use Rattle.script_lines.specs.cutting.Lines.{lines_of};
ghost use Rattle.sha2.specs.Sha256.{sha256};
ghost use Rattle.text_lines.specs.BufferedText.{Sends};
ghost use Rattle.text_lines.specs.Delivered.{Delivered};
ghost use Rattle.tool_io.specs.Counts.{raised};
ghost use Rattle.tool_io.specs.Fetched.{Files};
ghost use Rattle.tool_io.specs.Fetches.{Unseen};
ghost use Rattle.whole_tool.specs.Carried.{Alone};
ghost use Rattle.whole_tool.specs.Carrier.{carried_of, next_of};
ghost use Rattle.tool_replies.specs.Dump.{Dumps};
ghost use Rattle.whole_tool.specs.declared.run.LineRunner.{LineRunner};
ghost use Rattle.whole_tool.specs.Gen.{gen_outcome, gen_page, outcome_text};
ghost use Rattle.whole_tool.specs.Run.{HasCarriedOut, HasReadUpTo};
ghost use Rattle.whole_tool.specs.Tally.{costs_of_script, tally_from};
ghost use Rattle.tool_replies.specs.Endings.{IsOneOf};
ghost use Rattle.whole_tool.specs.Transcript.{IsShortScript, after_lines};
ghost use Rattle.whole_tool.specs.Works.{Trace, WorksPart};
ghost use Rattle.view_world.specs.frames.Watched.{IsWorth};
ghost use Rattle.world_parts.specs.World.{empty_world};
ghost use Rattle.view_model.specs.Works.{KeepsPainted, KeepsMeasured};

use crate::carrier::Carrier;
use crate::run::{Run, Stop};
use load_maker::script;
use sha2::{Digest, Sha256};
use std::alloc::Global;
use text_lines::TextBuffer;
use tool_io::{Failed, MemorySink, Sink, SteadyShelf};
use tool_replies::dump::status_of;
use tool_replies::status::{ACCEPTED, NO_MEMORY};
use view_model::Work;

/// How many bytes of a page are kept at a time.
const PIECE: usize = 4096;

/// The results of a load.
#[derive(Clone, Copy)]
pub struct Outcome {
    /// How many lines its script has.
    lines: u64,
    /// How many of them were refused.
    refused: u64,
    /// The SHA-256 of its page.
    digest: [u8; 32],
}

/// Runs the load of this size in a world of its own, and writes the results.
pub fn run_load<K: Sink>(alloc: Global, n: u32, sink: &mut K, work: &mut Work) -> u8
    requires { n ≤ 100 }
    ensures dumps { Dumps (gen_page n) false (K.state sink.old) (K.state sink.new) result }
    ensures known { IsOneOf result (0 ∷ 4 ∷ 5 ∷ []) }
    ensures worth { result ≢ 5 → IsWorth (costs_of_script (load n) []) work.old work.new }
    ensures works { WorksPart [] work.old work.new (lines_of (load n)) }
    ensures nothing_written { result ≡ 5 → sink.new ≡ sink.old }
    ensures sink_failed { (K.state sink.new).faults
        ≡ (if result == 4 then raised (K.state sink.old).faults else (K.state sink.old).faults) }
    ensures painted { KeepsPainted work.old work.new }
    ensures measured { KeepsMeasured work.old work.new }
{
    match load_outcome(alloc, n, work) {
        Some(outcome) => status_of(ACCEPTED, write_outcome(sink, outcome)),
        None => NO_MEMORY,
    }
}

/// The results of the load of this size, or `None` if there is no memory.
fn load_outcome(alloc: Global, n: u32, work: &mut Work) -> Option<Outcome>
    requires { n ≤ 100 }
    ensures value { IfSome result (λ outcome. outcome ≡ gen_outcome n) }
    ensures worth { IfSome result (λ outcome. IsWorth (costs_of_script (load n) []) work.old work.new) }
    ensures works { WorksPart [] work.old work.new (lines_of (load n)) }
    ensures painted { KeepsPainted work.old work.new }
    ensures measured { KeepsMeasured work.old work.new }
{
    let mut page = MemorySink::new(alloc, PIECE, Vec::new(alloc));
    let Ok(script) = script(alloc, n) else {
        return None;
    };
    match carried_out(alloc, script.as_slice(), &mut page, work) {
        Ok(outcome) => Some(outcome),
        Err(_) => None,
    }
}

/// The results of a whole script that is carried out without files.
fn carried_out(
    alloc: Global,
    script: &[u8],
    page: &mut MemorySink,
    work: &mut Work,
) -> Result<Outcome, Stop>
    requires short { IsShortScript script.now }
    ensures stopped { IfErr result (λ stop. WorksPart [] work.old work.new (lines_of script.now)) }
    ensures runs { IfOk result (λ outcome. (runner : LineRunner)
        × HasCarriedOut (record { gone = Some page.old.gone; work = work.old; fetches = Unseen })
        (record { gone = Some page.new.gone; work = work.new; fetches = Unseen }) runner
        (after_lines [] (lines_of script.now)) (tally_from (Alone empty_world) [] (lines_of script.now))
        × (outcome ≡ record { lines = runner.lines; refused = runner.refused; digest = sha256 page.new.gone })) }
    ensures painted { KeepsPainted work.old work.new }
    ensures measured { KeepsMeasured work.old work.new }
{
    let mut run = Run::new(alloc, Carrier::alone(alloc));
    carry_out(alloc, &mut run, script, page, work)
}

/// The same by a run of no lines yet.
fn carry_out(
    alloc: Global,
    run: &mut Run,
    script: &[u8],
    page: &mut MemorySink,
    work: &mut Work,
) -> Result<Outcome, Stop>
    requires short { IsShortScript script.now }
    requires start { carried_of run.old.runner.carrier ≡ Alone empty_world }
    requires following { (files : Option Files) (first : Trace)
        → HasReadUpTo (carried_of run.old.runner.carrier) files first first run.old [] }
    requires numbers { next_of run.old.runner.carrier ≡ 1 }
    ensures stopped { IfErr result (λ stop. WorksPart [] work.old work.new (lines_of script.now)) }
    ensures runs { IfOk result (λ outcome.
        HasCarriedOut (record { gone = Some page.old.gone; work = work.old; fetches = Unseen })
        (record { gone = Some page.new.gone; work = work.new; fetches = Unseen }) run.new.runner
        (after_lines [] (lines_of script.now)) (tally_from (Alone empty_world) [] (lines_of script.now))) }
    ensures outcome { IfOk result (λ outcome. outcome ≡ record {
      lines = run.new.runner.lines;
      refused = run.new.runner.refused;
      digest = sha256 page.new.gone;
    }) }
    ensures painted { KeepsPainted work.old work.new }
    ensures measured { KeepsMeasured work.old work.new }
{
    let mut shelf = SteadyShelf::new(Vec::new(alloc));
    run.piece(script, &mut shelf, page, work)?;
    run.finish(&mut shelf, page, work)?;
    Ok(outcome_of(run, page))
}

/// The results of a script that was carried out, of which this is the page.
fn outcome_of(run: &Run, page: &MemorySink) -> Outcome
    ensures { result
        ≡ record { lines = run.now.runner.lines; refused = run.now.runner.refused; digest = sha256 page.now.gone } }
{
    let (lines, refused) = run.counts();
    Outcome {
        lines,
        refused,
        digest: Sha256::digest(page.gone()),
    }
}

/// Writes the results of a load.
fn write_outcome<K: Sink>(sink: &mut K, outcome: Outcome) -> Result<(), Failed>
    ensures { Delivered (K.state sink.old) (K.state sink.new) result (outcome_text outcome) }
{
    let mut reply = TextBuffer::new();
    put_outcome(&mut reply, sink, outcome);
    reply.finish(sink)
}

/// The three lines of an outcome: how many lines the load has, how many were refused, and the digest of the page.
#[tactic(auto, using(text_lines::proofs::Sending::sends_both), unfolding(crate::specs::Gen::outcome_text))]
fn put_outcome<K: Sink>(reply: &mut TextBuffer, sink: &mut K, outcome: Outcome)
    ensures { Sends (K.state sink.old) (K.state sink.new) reply.old reply.new (outcome_text outcome) }
{
    reply.put(sink, b"lines ");
    reply.natural(sink, outcome.lines);
    reply.put(sink, b"\nrefused ");
    reply.natural(sink, outcome.refused);
    reply.put(sink, b"\npage ");
    reply.put(sink, &digits_of(outcome.digest));
    reply.put(sink, b"\n");
}

/// The digits of a digest.
fn digits_of(digest: [u8; 32]) -> [u8; 64]
    ensures { result ≡ encode_lower digest }
{
    let mut digits = [0; 64];
    let _ = hex::encode_to_slice(digest, &mut digits);
    digits
}
