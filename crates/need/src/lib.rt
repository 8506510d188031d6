#![tactic(auto)]

// The need of a program: the steps and the peak of its run term.
use grammar::tree::Range;
use programs::program::{Act, Node, Program};
use std::alloc::{AllocError, AllocFailed, Global};

// The most steps of a listing.
const MOST_STEPS: u64 = 1_000_000;

#[derive(Clone, Copy)]
pub struct Need {
    pub steps: u32,
    pub peak: u32,
}

#[derive(Clone, Copy)]
pub enum NeedFault {
    // 15: more steps than the limit
    Steps { place: usize },
    // 16: a peak above the machine's capacity
    Peak { place: usize },
    // a case of the layer's fault, since it has no number and no place
    Memory,
}

impl<T: Drop> From<AllocFailed<T>> for NeedFault {
    fn from(_e: AllocFailed<T>) -> NeedFault {
        NeedFault::Memory
    }
}

// What a term costs: its steps, its peak, and its net, which is `gain` less `loss`.
#[derive(Clone, Copy)]
struct Cost {
    steps: u64,
    gain: u64,
    loss: u64,
    peak: u64,
}

const FREE: Cost = Cost {
    steps: 0,
    gain: 0,
    loss: 0,
    peak: 0,
};

// One step of its own.
const STEP: Cost = Cost { steps: 1, ..FREE };

impl Cost {
    // This, and then a further piece.
    fn then(self, piece: Cost) -> Cost {
        let top = self
            .gain
            .saturating_add(piece.peak)
            .saturating_sub(self.loss);
        let gain = self.gain.saturating_add(piece.gain);
        let loss = self.loss.saturating_add(piece.loss);
        let common = gain.min(loss);
        Cost {
            steps: self.steps.saturating_add(piece.steps),
            gain: gain - common,
            loss: loss - common,
            peak: self.peak.max(top),
        }
    }

    // One of two branches: the greater steps and the greater peak; the nets are equal.
    fn either(self, other: Cost) -> Cost {
        Cost {
            steps: self.steps.max(other.steps),
            peak: self.peak.max(other.peak),
            ..self
        }
    }
}

// A step that prepares so many qbits.
fn prepare(qbits: usize) -> Cost {
    // No From of std takes a usize to a u64.
    let gain = qbits as u64;
    Cost {
        gain,
        peak: gain,
        ..STEP
    }
}

// The costs of the nodes, in their order.
// A table by the nodes' numbers: the costs of parts are looked up.
#[derive(Drop)]
pub struct Costs {
    table: Vec<Cost>,
}

impl Costs {
    // Room for the costs of up to `size` nodes.
    pub fn room(heap: Global, size: usize) -> Result<Costs, AllocError> {
        Ok(Costs {
            table: Vec::with_capacity(heap, size)?,
        })
    }

    // The cost of the node at `at`.
    // No Option: each caller would put the free cost for none.
    fn cost(&self, at: usize) -> Cost {
        self.table.get(at).copied().unwrap_or(FREE)
    }

    // The parts in running order, from left to right. The program is a parameter: a struct of it and the costs would serve three short functions.
    fn parts(&self, program: &Program, parts: Range) -> Cost {
        let costs = parts.numbers().rev().map(|at| self.cost(program.part(at)));
        costs.fold(STEP, Cost::then)
    }

    // Act and parts one by one: the case of an enum is no type of its own.
    fn built(&self, program: &Program, act: Act, parts: Range) -> Cost {
        let cost = self.parts(program, parts);
        match act {
            Act::Call(f) => cost.then(self.cost(program.root(f).body)),
            Act::Meas => cost.then(Cost { loss: 1, ..FREE }),
            _ => cost,
        }
    }

    fn node_cost(&self, program: &Program, node: Node) -> Cost {
        match node {
            Node::Place(_) | Node::Target(_) => FREE,
            Node::Constant(_) | Node::Use(_) => STEP,
            Node::Built { act, parts } => self.built(program, act, parts),
            Node::Bind { right, body, .. } => STEP.then(self.cost(right)).then(self.cost(body)),
            Node::Using { names, body } => prepare(names.len()).then(self.cost(body)),
            Node::If {
                condition,
                yes,
                other,
            } => {
                let branch = self.cost(yes).either(self.cost(other));
                STEP.then(self.cost(condition)).then(branch)
            }
        }
    }
}

// The need of a program on a machine of this capacity.
pub fn need_of(program: &Program, capacity: u8, mut costs: Costs) -> Result<Need, NeedFault> {
    for placed in program.nodes() {
        let cost = costs.node_cost(program, placed.node);
        costs.table.push(cost)?;
    }
    let cost = costs.cost(program.run_term());
    let place = program.run_place();
    if cost.steps > MOST_STEPS {
        return Err(NeedFault::Steps { place });
    }
    if cost.peak > u64::from(capacity) {
        return Err(NeedFault::Peak { place });
    }
    // Within the limits asked above.
    Ok(Need {
        steps: cost.steps as u32,
        peak: cost.peak as u32,
    })
}
