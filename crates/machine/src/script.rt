// The script machine: it answers the bits of the caller's bytes, and then zero for ever.
ghost use Rattle.std.specs.Prelude.{◌≡◌, ◌≤◌, length};
ghost use Rattle.machine.specs.Boards.{seen};
ghost use Rattle.machine.specs.Gates.{GateAnswer};
ghost use Rattle.machine.specs.Model.{Started, Clears};
ghost use Rattle.machine.specs.Promises.{PrepareAnswer, MeasureAnswer, IfRefused, IfAccepted};
ghost use Rattle.machine.specs.Scripts.{bit_at, next_place};

use crate::board::Board;
use crate::machine::Machine;
use crate::order::{Gate, Refusal};

#[derive(Drop)]
pub struct Script<'a> {
    // The caller's bytes as they are: 0 is zero, every other byte one.
    bits: &'a [u8],
    // a place, and not the rest of the bits: clauses speak of all bits
    next: usize,
    board: Board,
    ghost within: { next ≤ length bits.now },
}

impl<'a> Script<'a> {
    // A capacity of 0 is taken as 1, above 64 as 64.
    pub fn new(bits: &'a [u8], capacity: u8) -> Script<'a>
        ensures model { Started capacity (seen result.board) }
        ensures bits { result.bits.now ≡ bits.now }
        ensures place { result.next ≡ 0 }
    {
        Script {
            bits,
            next: 0,
            board: Board::new(capacity),
        }
    }

    // The bit at the place.
    fn bit(&self) -> bool
        ensures { result ≡ bit_at self.now.bits.now self.now.next }
    {
        self.bits.get(self.next).is_some_and(|byte| *byte != 0)
    }
}

// A method with clauses of its own repeats those of its trait.
impl Machine for Script<'_> {
    ghost model = { λ s. seen s.board };

    fn capacity(&self) -> u8 {
        self.board.capacity()
    }

    #[tactic(auto, using(crate::proofs::Kept::script_kept))]
    fn prepare(&mut self) -> Result<u8, Refusal>
        ensures answer { PrepareAnswer (seen self.old.board) (seen self.new.board) result }
        ensures same { IfRefused result (self.new ≡ self.old) }
        ensures bits { self.new.bits ≡ self.old.bits }
        ensures place { self.new.next ≡ self.old.next }
    {
        self.board.prepare(0)
    }

    #[tactic(auto, using(crate::proofs::Kept::script_kept))]
    fn measure(&mut self, handle: u8) -> Result<bool, Refusal>
        ensures answer { MeasureAnswer handle (seen self.old.board) (seen self.new.board) result }
        ensures same { IfRefused result (self.new ≡ self.old) }
        ensures bit { IfAccepted result (λ b. b ≡ bit_at self.old.bits.now self.old.next) }
        ensures bits { self.new.bits ≡ self.old.bits }
        ensures place { IfAccepted result (λ _. self.new.next ≡ next_place self.old.bits.now self.old.next) }
    {
        let bit = self.bit();
        self.board.measure(handle, bit)?;
        self.next = (self.next + 1).min(self.bits.len());
        Ok(bit)
    }

    fn clear(&mut self)
        ensures model { Clears (seen self.old.board) (seen self.new.board) }
        ensures bits { self.new.bits ≡ self.old.bits }
        ensures place { self.new.next ≡ self.old.next }
    {
        self.board.clear();
    }

    #[tactic(auto, using(crate::proofs::Kept::script_kept))]
    fn gate(&mut self, gate: Gate, handles: &[u8]) -> Result<(), Refusal>
        ensures answer { GateAnswer gate handles.now (seen self.old.board) (seen self.new.board) result }
        ensures same { IfRefused result (self.new ≡ self.old) }
        ensures bits { self.new.bits ≡ self.old.bits }
        ensures place { self.new.next ≡ self.old.next }
    {
        self.board.gate(gate, handles)
    }
}
