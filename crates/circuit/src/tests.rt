// Texts that are read, and texts that are refused at a line.
use crate::circuit::Circuit;
use std::test::Fail;

// How many nets are read, or a refusal's number and line.
fn nets(rt: HostRuntime, text: &[u8]) -> Result<Result<usize, (u8, usize)>, Fail> {
    let mut c = Circuit::new(rt.alloc())?;
    match c.read(text) {
        Ok(()) => Ok(Ok(c.len())),
        Err(fault) => Ok(Err((fault.number(), fault.line))),
    }
}

#[test]
fn circuits_are_read(rt: HostRuntime) -> Result<(), Fail> {
    let six =
        b"I\tup\nI\tdown\nL\tlower\tnl\t0\nN\tnd\tdown\nA\tnl\tup\tnd\nA\tboth\tlower\tdown\n";
    assert_eq!(rt; nets(rt, six)?, Ok(6));
    assert_eq!(rt;
        nets(rt, b"L\tq\tq\t0\n")?,
        Ok(1),
        "a latch that keeps its value"
    );
    Ok(())
}

#[test]
fn names_have_at_most_16_bytes(rt: HostRuntime) -> Result<(), Fail> {
    assert_eq!(rt; nets(rt, b"I\ta\nI\tabcdefghijklmnop\n")?, Ok(2));
    assert_eq!(rt; nets(rt, b"I\ta\nI\tabcdefghijklmnopq\n")?, Err((5, 2)));
    Ok(())
}

#[test]
fn operands_come_first(rt: HostRuntime) -> Result<(), Fail> {
    assert_eq!(rt; nets(rt, b"A\ta\ta\tb\n")?, Err((7, 1)));
    Ok(())
}
