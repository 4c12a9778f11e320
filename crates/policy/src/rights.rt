// A row of rights for each domain: bit g of the row says whether the domain may call gate g.
ghost use Rattle.policy.specs.Answers.{rights_allow};

use crate::Policy;

#[derive(Clone, Copy)]
pub struct Rights {
    pub rows: [u32; 8],
}

impl Policy for Rights {
    ghost allowed = { λ p d g. rights_allow p.rows d g };

    fn allows(&self, domain: usize, gate: u32) -> bool {
        domain < 8 && gate < 32 && (self.rows[domain] >> gate) % 2 == 1
    }
}
