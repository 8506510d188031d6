// The state of a run: what is entered or finished, what waits for it, finished parts, and the table of bindings.
ghost use Rattle.std.specs.Prelude.{◌≡◌};
ghost use Rattle.runs.specs.Runs.{ended_value};
ghost use Rattle.runs.specs.declared.state.Halt.TheVariants.{Refused};

use crate::value::Value;
use machine::machine::Machine;
use machine::order::Refusal;
use programs::program::Program;
use std::alloc::{AllocError, Global};

mod acts;
mod steps;

#[derive(Clone, Copy)]
pub enum Focus {
    // the term of this node comes next
    Entering(usize),
    // a term has become this value
    Finished(Value),
}

// A node that waits for one of its parts: the place of that part in the table of parts, if it stands there.
#[derive(Clone, Copy)]
pub struct Frame {
    node: usize,
    part: Option<usize>,
}

// Why no step was made.
#[derive(Clone, Copy)]
pub enum Halt {
    // the whole has become a value
    Ended,
    // the state is none that a checked listing comes to
    Stuck,
    // the machine refused an order
    Refused(Refusal),
}

impl From<Refusal> for Halt {
    ghost from_gives = { λ refusal halt. halt ≡ Refused refusal };

    fn from(refusal: Refusal) -> Halt {
        Halt::Refused(refusal)
    }
}

#[derive(Drop)]
pub struct State {
    focus: Focus,
    // Two stacks: a construct takes its finished parts from the end as one slice.
    frames: Vec<Frame>,
    // finished parts of the waiting nodes, the latest last
    values: Vec<Value>,
    // the value of each entry; an entry is the node of the name that is bound there
    table: Vec<Value>,
}

impl State {
    // Room for the runs of a program of up to `size` nodes.
    pub fn room(heap: Global, size: usize) -> Result<State, AllocError> {
        let frames = Vec::with_capacity(heap, size)?;
        let values = Vec::with_capacity(heap, size)?;
        let table = vec![in heap; Value::empty(); size]?;
        // Node 0 until the start, and empty until bound: all memory of a run is asked for before it.
        Ok(State {
            focus: Focus::Entering(0),
            frames,
            values,
            table,
        })
    }

    // The run of the term at a node begins.
    pub fn start(&mut self, term: usize) {
        self.focus = Focus::Entering(term);
        self.frames.clear();
        self.values.clear();
    }

    // The value of the whole, once it is finished.
    pub fn result(&self) -> Option<Value>
        ensures { result ≡ ended_value self.now }
    {
        match self.focus {
            Focus::Finished(value) if self.frames.is_empty() => Some(value),
            _ => None,
        }
    }

    // The next step.
    pub fn step<M: Machine>(&mut self, program: &Program, machine: &mut M) -> Result<(), Halt> {
        let mut stepper = Stepper {
            program,
            machine,
            state: self,
        };
        stepper.step()
    }

    fn entry(&self, at: usize) -> Result<&Value, Halt> {
        self.table.get(at).ok_or(Halt::Stuck)
    }

    // One entry is altered.
    fn set(&mut self, at: usize, value: &Value) -> Result<(), Halt> {
        let entry = self.table.get_mut(at).ok_or(Halt::Stuck)?;
        *entry = *value;
        Ok(())
    }
}

// What a step works on: the program, the machine that it orders, and the state.
#[derive(Drop)]
struct Stepper<'a, M: Machine> {
    program: &'a Program,
    machine: &'a mut M,
    state: &'a mut State,
}
