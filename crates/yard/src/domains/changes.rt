ghost use Rattle.std.specs.Prelude.{◌≡◌, ◌+◌, ◌^◌, ◌<◌, ◌≤◌};
ghost use Rattle.machine.specs.Registers.{value_of, written};
ghost use Rattle.machine.specs.Executed.{next_of, executed};
ghost use Rattle.segment.specs.Guards.{inside};
ghost use Rattle.segment.specs.Rows.{row};
ghost use Rattle.yard_steps.specs.States.{is_idle, is_active, is_stopped};
ghost use Rattle.yard_steps.specs.Model.{nobody};
ghost use Rattle.yard_steps.specs.Steps.{turned, after, arguments, handed};
ghost use Rattle.yard_steps.specs.Calls.{fresh, answered};
ghost use Rattle.yard.specs.Shapes.{shape};

use crate::domains::Domain;
use machine::{Effect, execute, next_pc, register, set_register};
use rv32i::Instruction;
use segment::Segment;
use yard_steps::{Event, State};

impl Domain {
    // What stands in the table where no domain is.
    pub fn nobody() -> Domain
        ensures { shape result ≡ nobody }
    {
        Domain {
            registers: [0; 32],
            pc: 0,
            state: State::Idle,
            base: 0,
            m: 6,
            segment: Segment::least(),
        }
    }

    // A domain that has just been admitted.
    pub fn fresh(registers: [u32; 32], base: u32, m: u32, segment: Segment) -> Domain
        requires { (m ≤ 14) × (base + 2 ^ m ≤ 65536) }
        ensures { shape result ≡ fresh registers base m (row segment) }
    {
        Domain {
            registers,
            pc: base,
            state: State::Idle,
            base,
            m,
            segment,
        }
    }

    pub fn pc(&self) -> u32
        ensures { result ≡ (shape self.now).pc }
    {
        self.pc
    }

    // Three tests by name, as the model has them; one that compares would need an equality of states, and its law at each call.
    pub fn is_idle(&self) -> bool
        ensures { result ≡ is_idle (shape self.now).state }
    {
        matches!(self.state, State::Idle)
    }

    pub fn is_active(&self) -> bool
        ensures { result ≡ is_active (shape self.now).state }
    {
        matches!(self.state, State::Active)
    }

    pub fn is_stopped(&self) -> bool
        ensures { result ≡ is_stopped (shape self.now).state }
    {
        matches!(self.state, State::Stopped)
    }

    // The code address at an offset of its window.
    pub fn address(&self, offset: u32) -> u32
        requires { offset < 2 ^ (shape self.now).m }
        ensures { result ≡ (shape self.now).base + offset }
    {
        self.base + offset
    }

    pub fn segment(&self) -> Segment
        ensures { row result ≡ (shape self.now).segment }
    {
        self.segment
    }

    // The number of bytes of its window.
    pub fn window_size(&self) -> u32
        ensures { result ≡ 2 ^ (shape self.now).m }
    {
        1u32 << self.m
    }

    pub fn register(&self, r: u8) -> u32
        ensures { result ≡ value_of (shape self.now).registers r }
    {
        register(&self.registers, r)
    }

    // The seven numbers that it hands over. Each register is written out, as the model has them: a loop would be no shorter to read.
    pub fn arguments(&self) -> [u32; 7]
        ensures { result ≡ arguments (shape self.now).registers }
    {
        [
            register(&self.registers, 10),
            register(&self.registers, 11),
            register(&self.registers, 12),
            register(&self.registers, 13),
            register(&self.registers, 14),
            register(&self.registers, 15),
            register(&self.registers, 16),
        ]
    }

    // Whether the byte at an address is one of its segment.
    pub fn holds(&self, address: u32) -> bool
        ensures { result ≡ inside (shape self.now).segment address }
    {
        self.segment.holds(address)
    }

    pub fn effect(&self, instruction: &Instruction) -> Effect
        ensures { result ≡ executed instruction.now (shape self.now).registers (shape self.now).pc }
    {
        execute(*instruction, &self.registers, self.pc)
    }

    // A register is written, and the pc goes on elsewhere.
    pub fn write(&mut self, rd: u8, value: u32, pc: u32)
        ensures { shape self.new ≡ turned (shape self.old) (written (shape self.old).registers rd value) pc }
    {
        self.pc = pc;
        set_register(&mut self.registers, rd, value);
    }

    pub fn jump(&mut self, pc: u32)
        ensures { shape self.new ≡ turned (shape self.old) (shape self.old).registers pc }
    {
        self.pc = pc;
    }

    // It goes on behind its ECALL, and something happens to it.
    pub fn leave(&mut self, event: Event)
        ensures { shape self.new ≡ after event (turned (shape self.old) (shape self.old).registers (next_of (shape self.old).pc)) }
    {
        self.pc = next_pc(self.pc);
        self.state = self.state.after(event);
    }

    pub fn meet(&mut self, event: Event)
        ensures { shape self.new ≡ after event (shape self.old) }
    {
        self.state = self.state.after(event);
    }

    // A caller gets two numbers back.
    pub fn take_back(&mut self, first: u32, second: u32)
        ensures { shape self.new ≡ turned (shape self.old) (written (written (shape self.old).registers 10 first) 11 second) (shape self.old).pc }
    {
        set_register(&mut self.registers, 10, first);
        set_register(&mut self.registers, 11, second);
    }

    // It is entered with seven numbers, each put into its register as `arguments` reads it.
    pub fn enter(&mut self, values: [u32; 7], pc: u32)
        ensures { shape self.new ≡ after Event.Entered (turned (shape self.old) (handed values (shape self.old).registers) pc) }
    {
        self.pc = pc;
        self.state = self.state.after(Event::Entered);
        set_register(&mut self.registers, 10, values[0]);
        set_register(&mut self.registers, 11, values[1]);
        set_register(&mut self.registers, 12, values[2]);
        set_register(&mut self.registers, 13, values[3]);
        set_register(&mut self.registers, 14, values[4]);
        set_register(&mut self.registers, 15, values[5]);
        set_register(&mut self.registers, 16, values[6]);
    }

    // Its host call is answered.
    pub fn answer(&mut self, value: u32)
        ensures { shape self.new ≡ answered value (shape self.old) }
    {
        self.state = self.state.after(Event::Reply);
        set_register(&mut self.registers, 10, value);
    }
}
