ghost use Rattle.std.specs.Prelude.{◌≡◌, ◌<◌, ◌≤◌, IfSome};
ghost use Rattle.std.specs.Result.{result_ok};
ghost use Rattle.yard_script.specs.Numbers.{Worth};
ghost use Rattle.yard_script.specs.Yards.{stands_after};

use crate::commands::Command;
use crate::faults::{Fault, Problem};
use rv32i::Instruction;
use std::alloc::Global;
use std::array;
use std::str::SplitWhitespace;

// A command, with the number of its line, counted from 1.
#[derive(Drop)]
pub struct Line {
    pub number: usize,
    pub command: Command,
}

// The commands of a script, or its first line with a fault. `#` begins a comment, and a line with no
// word is passed over.
pub fn read(heap: Global, text: &str) -> Result<Vec<Line>, Fault> {
    let mut lines = Vec::new(heap);
    let mut under_yard = false;
    for (number, row) in (1..).zip(text.lines()) {
        let fault = |problem| Fault {
            line: number,
            problem,
        };
        if let Some(command) = command_of(heap, row).map_err(fault)? {
            under_yard = stands(&command, under_yard).map_err(fault)?;
            lines
                .push(Line { number, command })
                .map_err(|_| fault(Problem::Memory))?;
        }
    }
    Ok(lines)
}

// Whether a yard stands over the code store after the command. A yard's code does not change, so none is appended there.
fn stands(command: &Command, under_yard: bool) -> Result<bool, Problem>
    ensures is { result_ok result ≡ stands_after command.now under_yard }
{
    match command {
        Command::Yard(_) => Ok(true),
        Command::Code(_) | Command::CodeFile(_) if under_yard => Err(Problem::UnderYard),
        _ => Ok(under_yard),
    }
}

fn command_of(heap: Global, row: &str) -> Result<Option<Command>, Problem> {
    let code = row.split_once('#').map_or(row, |(code, _comment)| code);
    let mut words = code.split_whitespace();
    let Some(name) = words.next() else {
        return Ok(None);
    };
    let mut operands = Operands { heap, words };
    let command = operands.command(name)?;
    if operands.words.next().is_some() {
        return Err(Problem::Words);
    }
    Ok(Some(command))
}

// The words of a line that have not been read yet.
#[derive(Drop)]
struct Operands<'a> {
    heap: Global,
    words: SplitWhitespace<'a>,
}

impl<'a> Operands<'a> {
    fn command(&mut self, name: &str) -> Result<Command, Problem> {
        Ok(match name {
            "decode" => Command::Decode(self.number()?),
            "encode" => Command::Encode(self.instruction()?),
            "memory" => self.memory()?,
            "peek" => Command::Peek {
                address: self.number()?,
                count: self.number()?,
            },
            "rights" => Command::Rights(self.numbers()?),
            "rings" => Command::Rings {
                domains: self.rings()?,
                gates: self.rings()?,
            },
            "may" => Command::May {
                domain: self.number()?,
                gate: self.number()?,
            },
            "code" => Command::Code(self.code()?),
            "code-file" => Command::CodeFile(String::from_str(self.heap, self.word()?)?),
            "check" => Command::Check {
                base: self.number()?,
                m: self.number()?,
            },
            _ => return self.yard_command(name),
        })
    }

    fn yard_command(&mut self, name: &str) -> Result<Command, Problem> {
        Ok(match name {
            "yard" => Command::Yard(self.number()?),
            "admit" => Command::Admit {
                base: self.number()?,
                m: self.number()?,
                data: self.number()?,
                k: self.number()?,
                registers: self.registers()?,
            },
            "open" => Command::Open {
                gate: self.number()?,
                domain: self.number()?,
                offset: self.number()?,
            },
            "call" => Command::Call {
                gate: self.number()?,
                values: self.first_numbers()?,
            },
            "run" => Command::Run(self.number()?),
            "reply" => Command::Reply(self.number()?),
            "cut" => Command::Cut,
            "register" => Command::Register {
                domain: self.number()?,
                number: self.number()?,
            },
            _ => return Err(Problem::Command),
        })
    }

    fn memory(&mut self) -> Result<Command, Problem> {
        match self.word()? {
            "flat" => Ok(Command::FlatMemory(self.number()?)),
            "lanes" => Ok(Command::LanesMemory(self.numbers()?)),
            _ => Err(Problem::Command),
        }
    }

    // All the words of the line that are left set a register.
    fn registers(&mut self) -> Result<[u32; 32], Problem> {
        let mut registers = [0; 32];
        for word in self.words.by_ref() {
            let (register, value) = setting(word).ok_or(Problem::Register)?;
            registers[register] = value;
        }
        Ok(registers)
    }

    // All the words of the line that are left, of which there is at least one.
    fn code(&mut self) -> Result<Vec<u32>, Problem> {
        let code: Vec<u32> = self.words.by_ref().map(number).try_collect(self.heap)?;
        if code.is_empty() {
            return Err(Problem::Words);
        }
        Ok(code)
    }

    fn instruction(&mut self) -> Result<Instruction, Problem> {
        let name = self.word()?;
        let read = match self.words.next() {
            Some(operands) => {
                let text = format!(in self.heap; "{name} {operands}")?;
                assembly::parse(self.heap, text.as_str())?
            }
            None => assembly::parse(self.heap, name)?,
        };
        read.ok_or(Problem::Instruction)
    }

    // Those above 3 count as 3. (`N ≤ 32` is asked here and below so that the array fits in memory.)
    fn rings<const N: usize>(&mut self) -> Result<[u8; N], Problem>
        requires { N ≤ 32 }
    {
        Ok(self.numbers()?.map(|ring| ring.min(3) as u8))
    }

    fn numbers<const N: usize>(&mut self) -> Result<[u32; N], Problem>
        requires { N ≤ 32 }
    {
        array::try_from_fn(|_| self.number())
    }

    // Numbers for the first places, as many as there are words, and no more than there are places. (`fuse`, since each question past
    // the last word would read the blanks at the end of the line again.)
    fn first_numbers<const N: usize>(&mut self) -> Result<[u32; N], Problem>
        requires { N ≤ 32 }
    {
        let mut words = self.words.by_ref().fuse();
        array::try_from_fn(|_| words.next().map_or(Ok(0), number))
    }

    fn number(&mut self) -> Result<u32, Problem> {
        number(self.word()?)
    }

    fn word(&mut self) -> Result<&'a str, Problem> {
        self.words.next().ok_or(Problem::Words)
    }
}

// A register, by its number, and what it is set to, as `x11=0x12` says.
fn setting(word: &str) -> Option<(usize, u32)>
    ensures bound { IfSome result (λ s. s.0 < 32) }
{
    let (register, value) = word.strip_prefix('x')?.split_once('=')?;
    let register = worth_of(register, 10)?;
    if register > 31 {
        return None;
    }
    Some((register as usize, number(value).ok()?))
}

fn number(text: &str) -> Result<u32, Problem> {
    let worth = match text.strip_prefix("0x") {
        Some(digits) => worth_of(digits, 16),
        None => worth_of(text, 10),
    };
    worth.ok_or(Problem::Number)
}

// The value of digits in a radix. `from_str_radix` takes a plus in front, which a script does not.
fn worth_of(text: &str, radix: u32) -> Option<u32>
    requires { (2 ≤ radix) × (radix ≤ 16) }
    ensures is { Worth radix text.now result }
{
    if text.starts_with('+') {
        return None;
    }
    u32::from_str_radix(text, radix).ok()
}
