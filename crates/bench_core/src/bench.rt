// The bench: a machine, and a run if one is loaded.
ghost use Rattle.std.specs.Prelude.{◌≡◌, not, is_some, None};
ghost use Rattle.bench_core.specs.Buffers.{Copied, Fronted};
ghost use Rattle.bench_core.specs.Looks.{need_loaded, taken_loaded, ended_loaded};
ghost use Rattle.machine.specs.Model.{Clears};
ghost use Rattle.machine.specs.Promises.{IfRefused};

use crate::report::report_text;
use faults::fault::{BenchFault, Fault};
use grammar::parse::parse;
use grammar::tree::Tree;
use machine::machine::Machine;
use need::{Costs, Need, need_of};
use rules::checker::{Checker, check};
use runs::run::{Done, Run};
use runs::state::State;
use std::alloc::{AllocError, Global};
use words::lexer::words;
use words::token::Word;

// The most bytes of a listing.
const LONGEST: usize = 2048;

// The most nodes of a tree: one for each word, and the type qbit.
const MOST_NODES: usize = LONGEST + 1;

// All memory that a load asks for.
#[derive(Drop)]
struct Room<'a> {
    words: Vec<Word<'a>>,
    tree: Tree,
    checker: Checker,
    costs: Costs,
    state: State,
}

impl<'a> Room<'a> {
    fn new(heap: Global) -> Result<Room<'a>, AllocError> {
        let words = Vec::with_capacity(heap, LONGEST)?;
        let tree = Tree::room(heap, LONGEST)?;
        let checker = Checker::room(heap, MOST_NODES)?;
        let costs = Costs::room(heap, MOST_NODES)?;
        let state = State::room(heap, MOST_NODES)?;
        Ok(Room {
            words,
            tree,
            checker,
            costs,
            state,
        })
    }
}

// Reads and checks a listing for a machine of this capacity.
fn examine<'a>(listing: &'a [u8], room: Room<'a>, capacity: u8) -> Result<Run, Fault> {
    let Room {
        words: mut found,
        mut tree,
        checker,
        costs,
        state,
    } = room;
    words(listing, &mut found)?;
    parse(found.as_slice(), listing.len(), &mut tree)?;
    let program = check(listing, tree, checker)?;
    let need = need_of(&program, capacity, costs)?;
    Ok(Run::start(program, need, state))
}

// Copies a text to the buffer's front, where it suffices; answers the text's length.
// By a test and a range: after a write through `get_mut` a proof knows the length of the buffer alone.
fn copy_to_front(buffer: &mut [u8], text: &[u8]) -> Result<usize, Fault>
    ensures { Copied text.now buffer.old buffer.new result }
{
    if text.len() > buffer.len() {
        return Err(BenchFault::Short.into());
    }
    buffer[..text.len()].copy_from_slice(text);
    Ok(text.len())
}

#[derive(Drop)]
pub struct Bench<M: Machine + Drop> {
    machine: M,
    run: Option<Run>,
}

impl<M: Machine + Drop> Bench<M> {
    // Takes a machine and clears it.
    pub fn open(mut machine: M) -> Bench<M>
        ensures machine { Clears (M.model machine) (M.model result.machine) }
        ensures run { result.run ≡ None }
    {
        machine.clear();
        Bench { machine, run: None }
    }

    // Reads and checks a listing, and begins its run; answers its need.
    pub fn load(&mut self, heap: Global, listing: &[u8]) -> Result<Need, Fault>
        ensures machine { self.new.machine ≡ self.old.machine }
        ensures same { IfRefused result (self.new ≡ self.old) }
    {
        if self.run.is_some() {
            return Err(BenchFault::Loaded.into());
        }
        if listing.len() > LONGEST {
            return Err(BenchFault::TooLong.into());
        }
        let room = Room::new(heap)?;
        let run = examine(listing, room, self.machine.capacity())?;
        let need = run.need();
        self.run = Some(run);
        Ok(need)
    }

    // Takes `count` steps of the run, or all that remain.
    pub fn advance(&mut self, count: u32) -> Result<Done, Fault> {
        let run = self.run.as_mut().ok_or(BenchFault::Unloaded)?;
        if run.has_ended() {
            return Err(BenchFault::Ended.into());
        }
        Ok(run.advance(&mut self.machine, count)?)
    }

    // Ends any run, clears the machine and empties the bench.
    pub fn clear(&mut self)
        ensures machine { Clears (M.model self.old.machine) (M.model self.new.machine) }
        ensures run { self.new.run ≡ None }
    {
        self.machine.clear();
        self.run = None;
    }

    // Writes the report of an ended run from the buffer's front; answers its length.
    // To the caller's buffer: a report asks for no memory.
    pub fn report(&self, buffer: &mut [u8]) -> Result<usize, Fault>
        ensures { Fronted buffer.old buffer.new result }
    {
        let run = self.run.as_ref().ok_or(BenchFault::Unloaded)?;
        let value = run.result().ok_or(BenchFault::Running)?;
        let text = report_text(run, &value);
        copy_to_front(buffer, text.bytes())
    }

    pub fn machine(&self) -> &M
        ensures { result.now ≡ self.now.machine }
    {
        &self.machine
    }

    // Is nothing loaded?
    pub fn is_empty(&self) -> bool
        ensures { result ≡ not (is_some self.now.run) }
    {
        self.run.is_none()
    }

    // The need of the listing that is loaded.
    pub fn need(&self) -> Option<Need>
        ensures { result ≡ need_loaded self.now.run }
    {
        self.run.as_ref().map(Run::need)
    }

    // The steps that the run has taken.
    pub fn taken(&self) -> Option<u32>
        ensures { result ≡ taken_loaded self.now.run }
    {
        self.run.as_ref().map(Run::taken)
    }

    // Is a run loaded that has ended?
    pub fn has_ended(&self) -> bool
        ensures { result ≡ ended_loaded self.now.run }
    {
        self.run.as_ref().is_some_and(Run::has_ended)
    }
}
