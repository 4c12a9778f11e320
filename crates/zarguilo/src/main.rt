// The program: a script in, a line an answer out.
#![tactic(auto)]

use anyhow::bail;
use script::{Command, Fault, Line, Problem, Session};
use std::{env, fs, io};

// The script: the file that the first argument names, or else standard input.
fn source(rt: &HostRuntime) -> anyhow::Result<String> {
    match env::args(rt)?.nth(1) {
        Some(path) => Ok(fs::read_to_string(rt, path.as_str())?),
        None => Ok(io::read_to_string(rt.alloc(), rt.stdin())?),
    }
}

// A command that names a file, with the words of the file in its place.
fn load(rt: &HostRuntime, command: Command) -> Result<Command, Problem> {
    match command {
        Command::CodeFile(path) => {
            let bytes = fs::read(rt, path.as_str()).map_err(|_| Problem::File)?;
            let words = script::words(rt.alloc(), bytes.as_slice())?;
            Ok(Command::Code(words.ok_or(Problem::Length)?))
        }
        other => Ok(other),
    }
}

fn commands(rt: &HostRuntime, text: &str) -> Result<Vec<Command>, Fault> {
    let mut commands = Vec::new(rt.alloc());
    for Line { number, command } in script::read(rt.alloc(), text)? {
        let fault = |problem| Fault {
            line: number,
            problem,
        };
        let command = load(rt, command).map_err(fault)?;
        commands.push(command).map_err(|_| fault(Problem::Memory))?;
    }
    Ok(commands)
}

fn run(rt: &HostRuntime, commands: Vec<Command>) -> anyhow::Result<()> {
    let heap = rt.alloc();
    let mut session = Session::new(heap);
    for command in commands {
        if let Some(answer) = session.perform(heap, command)? {
            rt.println(answer)?;
        }
    }
    Ok(())
}

fn main(rt: HostRuntime) -> anyhow::Result<()> {
    let text = source(&rt)?;
    match commands(&rt, text.as_str()) {
        Ok(commands) => run(&rt, commands),
        Err(fault) => {
            eprintln!(rt; "{fault}")?;
            bail!("the script was not run")
        }
    }
}
