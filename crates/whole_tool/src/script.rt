//! A source that is read in pieces while the script on it is carried out.

ghost use Rattle.std.specs.Prelude.{◌≡◌, ℕ, ◌-◌, List, [], Option, Some, Ok, OnOk};
ghost use Rattle.script_lines.specs.cutting.Lines.{lines_of};
ghost use Rattle.tool_io.specs.Fetched.{Files};
ghost use Rattle.whole_tool.specs.Carrier.{carried_of, next_of};
ghost use Rattle.whole_tool.specs.Run.{HasReadUpTo};
ghost use Rattle.whole_tool.specs.Script.{CountsEnd, RunsFrom, ends_counted, reads_counted};
ghost use Rattle.whole_tool.specs.Transcript.{after_from};
ghost use Rattle.whole_tool.specs.Works.{Trace, trace};
ghost use Rattle.view_model.specs.Works.{KeepsPainted, KeepsMeasured};
ghost use Rattle.world_parts.specs.Shelves.{KeepsFiles};

use crate::run::{Run, Stop};
use tool_io::{Shelf, Sink, Source};
use view_model::Work;

/// The most bytes that a script may have.
const MAX_SCRIPT: usize = 16777216;

/// How many bytes are read at a time.
const PIECE: usize = 4096;

/// What ends a run before the end of its script.
#[derive(Clone, Copy)]
pub enum End {
    /// A read failed.
    Source,
    /// The script is too long.
    Long,
    Stopped(Stop),
}

impl From<Stop> for End {
    ghost use Rattle.whole_tool.specs.declared.script.End.TheVariants.{Stopped};

    ghost from_gives = { λ stop end. end ≡ Stopped stop };

    /// `Stopped` with this reason.
    fn from(stop: Stop) -> End {
        End::Stopped(stop)
    }
}

/// Carries out the script on a source by a run that has not begun, reading on only after each line whose line feed has
/// come was carried out. Returns whether a line was refused.
pub fn run_to_end<S: Source, K: Sink, F: Shelf>(
    run: &mut Run,
    source: &mut S,
    shelf: &mut F,
    sink: &mut K,
    work: &mut Work,
) -> Result<bool, End>
    requires following { (files : Option Files) (first : Trace)
        → HasReadUpTo (carried_of run.old.runner.carrier) files first first run.old [] }
    requires numbers { next_of run.old.runner.carrier ≡ 1 }
    ensures runs { RunsFrom (carried_of run.old.runner.carrier) (F.files shelf.old)
        (S.left source.old) (S.left source.new) (trace (K.state sink.old) work.old (F.fetches shelf.old))
        (trace (K.state sink.new) work.new (F.fetches shelf.new)) result }
    ensures world { (files : Files) (script : List ℕ)
        → F.files shelf.old ≡ Some files
        → S.left source.old ≡ Some script
        → OnOk result (carried_of run.new.runner.carrier
        ≡ (after_from (carried_of run.old.runner.carrier) files (lines_of script)).carried) }
    ensures files_stay { KeepsFiles (F.files shelf.old) (F.files shelf.new) }
    ensures shelf_failed { CountsEnd (F.faults shelf.old) (F.faults shelf.new) result }
    ensures painted { KeepsPainted work.old work.new }
    ensures measured { KeepsMeasured work.old work.new }
    ensures source_failed { S.faults source.new ≡ reads_counted result (S.faults source.old) }
    ensures sink_failed { (K.state sink.new).faults ≡ ends_counted result (K.state sink.old).faults }
{
    let mut buffer = [0u8; PIECE];
    let mut left = MAX_SCRIPT;
    loop {
        let room = (left + 1).min(PIECE);
        let piece = &mut buffer[..room];
        let Ok(n) = source.read(piece) else {
            return Err(End::Source);
        };
        run.piece(&piece[..n.min(left)], shelf, sink, work)?;
        if n > left {
            return Err(End::Long);
        }
        if n == 0 {
            break;
        }
        left -= n;
    }
    run.finish(shelf, sink, work)?;
    Ok(run.refused())
}
