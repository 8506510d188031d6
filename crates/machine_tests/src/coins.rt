// The coin machine. The tests are like those of scripts: a helper for both would be as long as what it saves.
use super::expect::{accepted, answers, gives, refused};
use machine::coin::Coin;
use machine::machine::Machine;
use machine::order::Gate;
use std::test::Fail;

// From 0 the numbers are 13849, 48742, 31223, 17180, 13925 and 61346; a clear and a refused order change none.
#[test]
fn answers_the_known_bits(rt: HostRuntime) -> Result<(), Fail> {
    let mut m = Coin::new(0, 1);
    answers(&rt, &mut m, &[false, true, false])?;
    m.clear();
    refused(&rt, m.measure(0), 93)?;
    answers(&rt, &mut m, &[false, false, true])
}

// The next free handle after the last one given, 0 following the greatest.
#[test]
fn gives_the_next_handle(rt: HostRuntime) -> Result<(), Fail> {
    let mut m = Coin::new(0, 3);
    gives(&rt, &mut m, &[0])?;
    accepted(m.measure(0))?;
    gives(&rt, &mut m, &[1, 2, 0])?;
    refused(&rt, m.prepare(), 91)?;
    accepted(m.measure(0))?;
    gives(&rt, &mut m, &[0])?;
    m.clear();
    gives(&rt, &mut m, &[1])
}

#[test]
fn asks_the_questions_in_order(rt: HostRuntime) -> Result<(), Fail> {
    let mut m = Coin::new(0, 2);
    gives(&rt, &mut m, &[0])?;
    accepted(m.gate(Gate::Z, &[0]))?;
    refused(&rt, m.gate(Gate::Swap, &[0]), 92)?;
    refused(&rt, m.gate(Gate::Swap, &[0, 1]), 93)?;
    refused(&rt, m.gate(Gate::Swap, &[0, 0]), 94)
}

#[test]
fn takes_a_capacity_from_1_to_64(rt: HostRuntime) {
    assert_eq!(rt; Coin::new(7, 0).capacity(), 1);
    assert_eq!(rt; Coin::new(7, 200).capacity(), 64);
}
