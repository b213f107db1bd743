// Keeps traces of large circuits over 64 frames, and prints how many dashes they have: what keeping costs.
#![tactic(auto)]

use anyhow::Context;
use circuit::circuit::Circuit;
use circuit::nets::{Frame, Net};
use std::alloc::{AllocError, Global};
use trace::goal::Goal;
use trace::recording::Recording;

const LAST: u32 = 63;

// 255 inputs, and the and of the first two.
fn wide(heap: Global) -> Result<String, AllocError> {
    let mut text = String::new(heap);
    for n in 0..255 {
        text.push_str(format!(in heap; "I\ti{n}\n")?.as_str())?;
    }
    text.push_str("A\tt\ti0\ti1\n")?;
    Ok(text)
}

// The parity of 127 inputs over all frames so far: no input may be left open.
fn parity(heap: Global) -> Result<String, AllocError> {
    let mut text = String::new(heap);
    text.push_str("L\tx0\tx127\t1\n")?;
    for before in 0..127 {
        let n = before + 1;
        text.push_str(format!(in heap; "I\ti{n}\nX\tx{n}\tx{before}\ti{n}\n")?.as_str())?;
    }
    Ok(text)
}

// Keeps the trace of a solution in which every net is on.
fn keep(rt: &HostRuntime, name: &str, text: &str) -> anyhow::Result<()> {
    let heap = rt.alloc();
    let mut circuit = Circuit::new(heap)?;
    circuit
        .read(text.as_bytes())
        .context("the circuit is refused")?;
    let nets = circuit.len();
    let mut recording = Recording::new(heap, circuit)?;
    let solution = vec![in heap; true; nets * 64]?;
    let goal = Goal {
        last: Frame(LAST),
        // the cast is proved: a circuit has at most 256 nets
        target: Net(nets.saturating_sub(1) as u32),
    };
    recording.keep(&solution, goal).context("no trace is kept")?;
    let trace = recording.trace().context("no trace is held")?;
    let entries = trace.values.len();
    let open = trace.dashes();
    println!(rt; "{name}: {nets} nets, {entries} entries, {open} dashes")?;
    Ok(())
}

fn main(rt: HostRuntime) -> anyhow::Result<()> {
    let heap = rt.alloc();
    keep(&rt, "wide", wide(heap)?.as_str())?;
    keep(&rt, "parity", parity(heap)?.as_str())
}
