// The script machine.
use super::expect::{accepted, answers, gives, refused};
use machine::machine::Machine;
use machine::order::Gate;
use machine::script::Script;
use std::test::Fail;

// The bytes as bits, then zeros; a clear does not go back to the first, and a refused order takes none.
#[test]
fn answers_the_bits(rt: HostRuntime) -> Result<(), Fail> {
    let mut m = Script::new(&[0, 7, 1], 4);
    answers(&rt, &mut m, &[false, true])?;
    m.clear();
    refused(&rt, m.measure(0), 93)?;
    answers(&rt, &mut m, &[true, false, false])
}

// The lowest free handle, until as many are live as the capacity.
#[test]
fn gives_the_lowest_handle(rt: HostRuntime) -> Result<(), Fail> {
    let mut m = Script::new(&[], 3);
    gives(&rt, &mut m, &[0, 1, 2])?;
    refused(&rt, m.prepare(), 91)?;
    accepted(m.measure(1))?;
    gives(&rt, &mut m, &[1])
}

#[test]
fn asks_the_questions_in_order(rt: HostRuntime) -> Result<(), Fail> {
    let mut m = Script::new(&[], 64);
    gives(&rt, &mut m, &[0, 1])?;
    accepted(m.gate(Gate::Cnot, &[1, 0]))?;
    refused(&rt, m.gate(Gate::Cz, &[9]), 92)?;
    refused(&rt, m.gate(Gate::Swap, &[9, 9]), 93)?;
    refused(&rt, m.gate(Gate::Y, &[64]), 93)?;
    refused(&rt, m.gate(Gate::Cnot, &[1, 1]), 94)
}

#[test]
fn takes_a_capacity_from_1_to_64(rt: HostRuntime) {
    assert_eq!(rt; Script::new(&[], 0).capacity(), 1);
    assert_eq!(rt; Script::new(&[], 200).capacity(), 64);
}
