// Orders that a test expects to be accepted, or refused with a number.
use machine::machine::Machine;
use machine::order::Refusal;
use std::process::Abort;
use std::test::Fail;

// By number, so that a test shows the documented numbers too.
pub fn refused<T: Drop>(
    rt: &impl Abort,
    answer: Result<T, Refusal>,
    number: u8,
) -> Result<(), Fail> {
    let Err(refusal) = answer else {
        return Err(Fail::new("accepted"));
    };
    assert_eq!(rt; refusal.number(), number);
    Ok(())
}

pub fn accepted<T: Drop>(answer: Result<T, Refusal>) -> Result<T, Fail> {
    answer.map_err(|_| Fail::new("refused"))
}

// One prepare for each handle gives it.
pub fn gives<M: Machine>(rt: &impl Abort, machine: &mut M, handles: &[u8]) -> Result<(), Fail> {
    for handle in handles {
        assert_eq!(rt; accepted(machine.prepare())?, *handle);
    }
    Ok(())
}

// For each bit, the measurement of a fresh handle answers it.
pub fn answers<M: Machine>(rt: &impl Abort, machine: &mut M, bits: &[bool]) -> Result<(), Fail> {
    for bit in bits {
        let handle = accepted(machine.prepare())?;
        assert_eq!(rt; accepted(machine.measure(handle))?, *bit);
    }
    Ok(())
}
