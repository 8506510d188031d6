// A run of a program, from a load to the next clear.
ghost use Rattle.std.specs.Prelude.{◌≡◌};
ghost use Rattle.runs.specs.Runs.{ended_value, need_told, taken_told, ended_told};

use crate::state::{Halt, State};
use crate::value::Value;
use machine::machine::Machine;
use machine::order::Refusal;
use need::Need;
use programs::program::Program;

#[derive(Drop)]
pub struct Run {
    program: Program,
    need: Need,
    taken: u32,
    state: State,
}

// What an advance answers.
// Both, as the answer of an advance is documented.
#[derive(Clone, Copy)]
pub struct Done {
    pub steps: u32,
    pub ended: bool,
}

impl Run {
    // The run of a program begins.
    pub fn start(program: Program, need: Need, mut state: State) -> Run {
        state.start(program.run_term());
        Run {
            program,
            need,
            taken: 0,
            state,
        }
    }

    pub fn program(&self) -> &Program
        ensures { result.now ≡ self.now.program }
    {
        &self.program
    }

    pub fn need(&self) -> Need
        ensures { result ≡ need_told self.now }
    {
        self.need
    }

    // The steps taken since the start.
    pub fn taken(&self) -> u32
        ensures { result ≡ taken_told self.now }
    {
        self.taken
    }

    // The value of the whole, once the run has ended.
    pub fn result(&self) -> Option<Value>
        ensures { result ≡ ended_value self.now.state }
    {
        self.state.result()
    }

    pub fn has_ended(&self) -> bool
        ensures { result ≡ ended_told self.now }
    {
        self.state.result().is_some()
    }

    // What was done, after so many steps.
    fn done(&self, steps: u32) -> Done {
        Done {
            steps,
            ended: self.has_ended(),
        }
    }

    // Takes `count` steps, or all that remain.
    pub fn advance<M: Machine>(&mut self, machine: &mut M, count: u32) -> Result<Done, Refusal> {
        for steps in 0..count {
            match self.state.step(&self.program, machine) {
                Ok(()) => self.taken = self.taken.saturating_add(1),
                Err(Halt::Ended | Halt::Stuck) => return Ok(self.done(steps)),
                Err(Halt::Refused(refusal)) => return Err(refusal),
            }
        }
        Ok(self.done(count))
    }
}
