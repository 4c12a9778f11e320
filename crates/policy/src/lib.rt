// Which domain may call which gate.
#![tactic(auto)]

ghost use Rattle.std.specs.Prelude.{◌≡◌, Bool, ℕ};

pub mod any;
pub mod rights;
pub mod rings;

pub trait Policy {
    // A yes or no for each calling domain and each gate. Asking does not change the policy, so asked twice it answers alike.
    ghost allowed: { Self → ℕ → ℕ → Bool };

    fn allows(&self, domain: usize, gate: u32) -> bool
        ensures is { result ≡ allowed self.now domain gate };
}
