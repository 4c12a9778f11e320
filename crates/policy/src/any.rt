// One of the built policies, chosen at run time.
ghost use Rattle.policy.specs.Choice.{any_allows};

use crate::Policy;
use crate::rights::Rights;
use crate::rings::Rings;

#[derive(Clone, Copy)]
pub enum AnyPolicy {
    Rights(Rights),
    Rings(Rings),
}

impl Policy for AnyPolicy {
    ghost allowed = { λ p d g. any_allows p d g };

    fn allows(&self, domain: usize, gate: u32) -> bool {
        match self {
            AnyPolicy::Rights(p) => p.allows(domain, gate),
            AnyPolicy::Rings(p) => p.allows(domain, gate),
        }
    }
}
