// The coin machine: it answers bits from a number that changes with each measurement.
// It and the script machine share a board, and are no one type over a policy: the clauses of such a type would only restate those of the two.
ghost use Rattle.std.specs.Prelude.{◌≡◌, ◌<◌, Some, None};
ghost use Rattle.machine.specs.Boards.{seen};
ghost use Rattle.machine.specs.Coins.{next_number, bit_of, handle_after, NextHandle, OneNextHandle};
ghost use Rattle.machine.specs.Gates.{GateAnswer};
ghost use Rattle.machine.specs.Model.{Started, Clears};
ghost use Rattle.machine.specs.Promises.{PrepareAnswer, MeasureAnswer, IfRefused, IfAccepted};

use crate::board::Board;
use crate::machine::Machine;
use crate::order::{Gate, Refusal};

#[derive(Drop)]
pub struct Coin {
    s: u16,
    last: Option<u8>,
    board: Board,
}

const MULTIPLIER: u16 = 25173;

const INCREMENT: u16 = 13849;
// A number from here on gives the bit one.
const HALF: u16 = 32768;

// The number that follows s.
fn next_number(s: u16) -> u16
    ensures { result ≡ next_number s }
{
    s.wrapping_mul(MULTIPLIER).wrapping_add(INCREMENT)
}

// The handle after the last one given: 0 after the greatest, and 0 where none was given.
fn handle_after(capacity: u8, last: Option<u8>) -> u8
    requires { 0 < capacity }
    ensures { result ≡ handle_after capacity last }
{
    // Below the capacity, which is a u8.
    last.map_or(
        0,
        |last| ((u16::from(last) + 1) % u16::from(capacity)) as u8,
    )
}

// The promise about the handle that prepare gives leaves no choice.
pub fn next_handle_stands()
    ensures { OneNextHandle }
{}

impl Coin {
    // A capacity of 0 is taken as 1, above 64 as 64.
    pub fn new(s: u16, capacity: u8) -> Coin
        ensures model { Started capacity (seen result.board) }
        ensures number { result.s ≡ s }
        ensures last { result.last ≡ None }
    {
        Coin {
            s,
            last: None,
            board: Board::new(capacity),
        }
    }
}

// A method with clauses of its own repeats those of its trait.
impl Machine for Coin {
    ghost model = { λ c. seen c.board };

    fn capacity(&self) -> u8 {
        self.board.capacity()
    }

    fn prepare(&mut self) -> Result<u8, Refusal>
        ensures answer { PrepareAnswer (seen self.old.board) (seen self.new.board) result }
        ensures same { IfRefused result (self.new ≡ self.old) }
        ensures handle { IfAccepted result (λ h. NextHandle (seen self.old.board) self.old.last h) }
        ensures last { IfAccepted result (λ h. self.new.last ≡ Some h) }
        ensures number { self.new.s ≡ self.old.s }
    {
        let start = handle_after(self.board.capacity(), self.last);
        let handle = self.board.prepare(start)?;
        self.last = Some(handle);
        Ok(handle)
    }

    fn measure(&mut self, handle: u8) -> Result<bool, Refusal>
        ensures answer { MeasureAnswer handle (seen self.old.board) (seen self.new.board) result }
        ensures same { IfRefused result (self.new ≡ self.old) }
        ensures number { IfAccepted result (λ _. self.new.s ≡ next_number self.old.s) }
        ensures bit { IfAccepted result (λ b. b ≡ bit_of (next_number self.old.s)) }
        ensures last { self.new.last ≡ self.old.last }
    {
        let s = next_number(self.s);
        let bit = s >= HALF;
        self.board.measure(handle, bit)?;
        self.s = s;
        Ok(bit)
    }

    fn clear(&mut self)
        ensures model { Clears (seen self.old.board) (seen self.new.board) }
        ensures number { self.new.s ≡ self.old.s }
        ensures last { self.new.last ≡ self.old.last }
    {
        self.board.clear();
    }

    fn gate(&mut self, gate: Gate, handles: &[u8]) -> Result<(), Refusal>
        ensures answer { GateAnswer gate handles.now (seen self.old.board) (seen self.new.board) result }
        ensures same { IfRefused result (self.new ≡ self.old) }
        ensures number { self.new.s ≡ self.old.s }
        ensures last { self.new.last ≡ self.old.last }
    {
        self.board.gate(gate, handles)
    }
}
