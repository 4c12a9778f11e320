// A ring for each domain and each gate, 0 to 3: a domain may call the gates of its own ring and of those further out.
ghost use Rattle.policy.specs.Answers.{rings_allow};

use crate::Policy;

// A number above 3 counts as 3, so any byte is a ring; an enum would ask more of callers.
#[derive(Clone, Copy)]
pub struct Rings {
    pub domains: [u8; 8],
    pub gates: [u8; 32],
}

impl Policy for Rings {
    ghost allowed = { λ p d g. rings_allow p.domains p.gates d g };

    fn allows(&self, domain: usize, gate: u32) -> bool {
        domain < 8 && gate < 32 && self.domains[domain].min(3) <= self.gates[gate as usize].min(3)
    }
}
