//! The hook of a view: edits that are made once the view has another size.

ghost use Rattle.std.specs.Prelude.{◌≡◌, ◌≤◌, ◌+◌, ◌∷◌, [], ℕ, List, false, IfOk, IfSome, None};
ghost use Rattle.std.specs.List.{All};
ghost use Rattle.arrayvec.specs.ArrayVec.{array_vec_len};
ghost use Rattle.script_lines.specs.reading.Changes.{IsChangeInBounds};
ghost use Rattle.script_lines.specs.reading.Commands.{hook_of, IsCommandInBounds};
ghost use Rattle.script_lines.specs.reading.Gathered.{following, edits_after, edits_in, reading_of};
ghost use Rattle.script_lines.specs.reading.Hooks.{asked_of, edit_of, edits_of, edits_written, unmade_of};
ghost use Rattle.script_lines.specs.commands.PlainCommands.{plain_command};
ghost use Rattle.line_words.specs.words.Words.{map_ok, words};
ghost use Rattle.view_model.specs.Numbers.{max_edits};

use crate::commands::{Asked, Command};
use crate::reading::changes::read_change;
use crate::reading::parting::first_edit;
use crate::verbs::{ChangeVerb, named_change, named_verb};
use arrayvec::ArrayVec;
use line_words::LineFault;
use line_words::words::naming::name_word;
use line_words::words::word;
use view_model::limits::MAX_EDITS;

/// What an edit asks for, by what its first word asks for and what comes after that word.
#[tactic(auto, unfolding(crate::specs::reading::Hooks::asked_of))]
fn read_asked(verb: ChangeVerb, bytes: &[u8]) -> Result<Asked, LineFault>
    ensures value { result ≡ asked_of verb (words bytes.now) }
    ensures bounds { IfOk result (λ asked. IsChangeInBounds asked.change) }
{
    let (view, rest) = name_word(bytes)?;
    let change = read_change(verb, rest)?;
    Ok(Asked { view, change })
}

/// An edit of which only the first word is read.
#[tactic(auto, unfolding(crate::specs::reading::Hooks::unmade_of))]
fn read_unmade(bytes: &[u8]) -> Result<Option<Asked>, LineFault>
    ensures value { result ≡ unmade_of (words bytes.now) }
    ensures none { IfOk result (λ asked. asked ≡ None) }
{
    let (head, _) = word(bytes)?;
    match named_verb(head) {
        Some(_) => Ok(None),
        None => Err(LineFault::Syntax),
    }
}

/// An edit that is read to its end, if a hook can make it; `None` if no hook can.
#[tactic(auto, unfolding(crate::specs::reading::Hooks::edit_of))]
fn read_edit(bytes: &[u8]) -> Result<Option<Asked>, LineFault>
    ensures value { result ≡ edit_of (words bytes.now) }
    ensures bounds { IfOk result (λ asked. IfSome asked (λ asked. IsChangeInBounds asked.change)) }
{
    let (head, rest) = word(bytes)?;
    match named_change(head) {
        Some(verb) => Ok(Some(read_asked(verb, rest)?)),
        None => read_unmade(bytes),
    }
}

/// The next edit, if `count` more are read to their ends.
#[tactic(auto, unfolding(crate::specs::reading::Gathered::reading_of))]
fn read_next(left: usize, bytes: &[u8]) -> Result<Option<Asked>, LineFault>
    ensures value { result ≡ reading_of left (words bytes.now) }
    ensures bounds { IfOk result (λ asked. IfSome asked (λ asked. IsChangeInBounds asked.change)) }
    ensures none { left ≡ 0 → IfOk result (λ asked. asked ≡ None) }
{
    if left > 0 {
        return read_edit(bytes);
    }
    read_unmade(bytes)
}

/// The edits of a hook that are read so far.
#[derive(Drop)]
struct Gathered {
    /// The edits among those that a hook can make, in order.
    edits: ArrayVec<Asked, MAX_EDITS>,
    /// How many more are read to their ends.
    left: usize,
    /// Whether no hook can make one of them.
    bad: bool,
    /// Whether a number in one of them is outside its bounds.
    range: bool,
}

impl Gathered {
    /// No edit is read.
    fn new() -> Gathered
        ensures edits { result.edits.items ≡ [] }
        ensures left { result.left ≡ max_edits }
        ensures bad { result.bad ≡ false }
        ensures range { result.range ≡ false }
    {
        Gathered {
            edits: ArrayVec::new(),
            left: MAX_EDITS,
            bad: false,
            range: false,
        }
    }

    /// Reads one edit more. A number outside its bounds is only recorded, since a fault of the grammar may follow.
    fn add(&mut self, bytes: &[u8]) -> Result<(), LineFault>
        requires room { array_vec_len self.old.edits + self.old.left ≤ max_edits }
        ensures room { array_vec_len self.new.edits + self.new.left ≤ max_edits }
        ensures bounds { All (λ asked. IsChangeInBounds asked.change) self.old.edits.items
            → All (λ asked. IsChangeInBounds asked.change) self.new.edits.items }
        ensures edits { (more : List (List (List ℕ)))
            → edits_after self.old (words bytes.now ∷ more) ≡ following result (edits_after self.new more) }
    {
        let reading = read_next(self.left, bytes);
        self.left = self.left.saturating_sub(1);
        match reading {
            Ok(Some(asked)) => self.edits.push(asked),
            Ok(None) => self.bad = true,
            Err(LineFault::Range) => self.range = true,
            Err(LineFault::Syntax) => return Err(LineFault::Syntax),
        }
        Ok(())
    }
}

/// The edits that end a line.
fn gather(bytes: &[u8]) -> Result<Gathered, LineFault>
    ensures value { edits_in result ≡ edits_of (words bytes.now) }
    ensures room { IfOk result (λ gathered. array_vec_len gathered.edits ≤ max_edits) }
    ensures bounds { IfOk result (λ gathered. All (λ asked. IsChangeInBounds asked.change) gathered.edits.items) }
{
    let mut gathered = Gathered::new();
    let mut at = 0;
    while let Some((end, following)) = first_edit(&bytes[at..]) {
        gathered.add(&bytes[at..at + end])?;
        at += following;
    }
    gathered.add(&bytes[at..])?;
    Ok(gathered)
}

/// Arms the hook of a view. Its edits are read here for their faults, and again where the hook is armed: a command that
/// held them would be seven times as large, and each line would pay for it.
#[inline(never)]
#[tactic(auto, unfolding(crate::specs::reading::Commands::hook_of, crate::specs::reading::Hooks::edits_written), using(crate::proofs::readings::HookLaws::edits_end))]
pub fn hook(bytes: &[u8]) -> Result<Command<'_>, LineFault>
    ensures value { map_ok plain_command result ≡ hook_of (words bytes.now) }
    ensures bounds { IfOk result IsCommandInBounds }
{
    let (view, rest) = name_word(bytes)?;
    let gathered = gather(rest)?;
    if gathered.range {
        return Err(LineFault::Range);
    }
    Ok(Command::Hook {
        view,
        edits: rest,
        bad: gathered.bad,
    })
}

/// The edits of a hook by the text that `Command::Hook` has of them; none if that text gives none.
#[inline(never)]
#[tactic(auto, unfolding(crate::specs::reading::Hooks::edits_written), using(crate::proofs::readings::HookLaws::edits_end))]
pub fn edits_written(text: &[u8]) -> ArrayVec<Asked, MAX_EDITS>
    ensures { result.items ≡ edits_written text.now }
{
    match gather(text) {
        Ok(gathered) if !gathered.range => gathered.edits,
        Ok(_) | Err(_) => ArrayVec::new(),
    }
}
