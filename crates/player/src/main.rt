// Plays a trace on a circuit, both read from files, with one net held or none.
#![tactic(auto)]

use anyhow::{Context, anyhow};
use replay::fault::ReplayFault;
use replay::record::HoldRecord;
use replay::replayer::Replayer;
use replay::report::Report;
use std::process::ExitCode;
use std::{env, fs};

const USAGE: &str = "usage: player CIRCUIT TRACE [NET-NAME 0|1]";

// What the command line asks for: two files, and the net to hold, by its name, with its bit.
#[derive(Drop)]
struct Request {
    circuit: String,
    trace: String,
    hold: Option<(String, bool)>,
}

// By hand, since `parse` of a `bool` reads true and false.
fn bit_of(word: &str) -> Option<bool> {
    match word {
        "0" => Some(false),
        "1" => Some(true),
        _ => None,
    }
}

fn hold_asked(rt: &HostRuntime) -> anyhow::Result<Option<(String, bool)>> {
    let mut words = env::args(rt)?.skip(3);
    let Some(name) = words.next() else {
        return Ok(None);
    };
    let value = words.next().context(USAGE)?;
    let bit = bit_of(value.as_str()).context(USAGE)?;
    Ok(Some((name, bit)))
}

fn asked(rt: &HostRuntime) -> anyhow::Result<Request> {
    let mut words = env::args(rt)?;
    if words.len() > 5 {
        return Err(anyhow!(USAGE));
    }
    let _ = words.next();
    let circuit = words.next().context(USAGE)?;
    let trace = words.next().context(USAGE)?;
    let hold = hold_asked(rt)?;
    Ok(Request {
        circuit,
        trace,
        hold,
    })
}

fn held(
    replayer: &mut Replayer,
    circuit: &[u8],
    trace: &[u8],
    name: &str,
    bit: bool,
) -> Result<Report, ReplayFault> {
    let hold = replayer.hold_named(circuit, name.as_bytes(), bit)?;
    replayer.replay_held(circuit, trace, &mut HoldRecord::new(), hold)
}

fn play(rt: &HostRuntime, request: &Request) -> anyhow::Result<Result<Report, ReplayFault>> {
    let circuit = fs::read(rt, request.circuit.as_str())?;
    let trace = fs::read(rt, request.trace.as_str())?;
    let mut replayer = Replayer::new(rt.alloc())?;
    match &request.hold {
        Some((name, bit)) => Ok(held(&mut replayer, &circuit, &trace, name.as_str(), *bit)),
        None => Ok(replayer.replay(&circuit, &trace, &HoldRecord::new())),
    }
}

fn show(rt: &HostRuntime, report: Report) -> anyhow::Result<()> {
    let Report {
        nets,
        frames,
        dashes,
        answer,
    } = report;
    println!(rt; "nets {nets}, frames {frames}, dashes {dashes}: {answer}")?;
    Ok(())
}

fn refuse(rt: &HostRuntime, fault: ReplayFault) -> anyhow::Result<()> {
    let number = fault.number();
    let line = fault.line();
    println!(rt; "no\t{number}\t{line}")?;
    Err(fault.into())
}

fn run(rt: &HostRuntime) -> anyhow::Result<()> {
    let request = asked(rt)?;
    match play(rt, &request)? {
        Ok(report) => show(rt, report),
        Err(fault) => refuse(rt, fault),
    }
}

// A refusal has its sentence on standard error and ends the program with status 1.
fn main(rt: HostRuntime) -> anyhow::Result<ExitCode> {
    match run(&rt) {
        Ok(()) => Ok(ExitCode::SUCCESS),
        Err(error) => {
            eprintln!(rt; "player: {error}")?;
            Ok(ExitCode::FAILURE)
        }
    }
}
