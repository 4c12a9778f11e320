use yard_steps::Report;

// A host call that waits for its answer. It cannot be let go: `Yard::reply` takes it, or `Yard::end` with its yard.
pub struct Pending {
    token: (),
}

impl Pending {
    pub(crate) fn new() -> Pending {
        Pending { token: () }
    }

    pub(crate) fn spend(self) {
        let Pending { token: () } = self;
    }
}

// How a run ended. Where a domain asks the host, its call is given out; that it is so exactly there stands as a clause `token`,
// since an enum has no ghost field.
pub enum Outcome {
    Ended(Report),
    Asked(Report, Pending),
}
