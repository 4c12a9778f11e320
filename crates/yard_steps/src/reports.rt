// Why a run ended.
#[derive(Clone, Copy)]
pub enum Reason {
    Host,
    Stopped,
    Finished,
    Spent,
}

// How a step ended its run: of which domain, at the word at which pc, and two numbers as `Report` has them.
#[derive(Clone, Copy)]
pub struct Ending {
    pub reason: Reason,
    pub domain: usize,
    pub pc: u32,
    pub first: u32,
    pub second: u32,
}

// How a run ended: after `count` steps, at the word at `pc` of a domain. `first` and `second` are x10 and x11 for `Host` and
// `Finished`, the cause and its detail for `Stopped`, and 0 for `Spent`, whose domain and pc are those that go next.
#[derive(Clone, Copy)]
pub struct Report {
    pub reason: Reason,
    pub count: u32,
    pub domain: usize,
    pub pc: u32,
    pub first: u32,
    pub second: u32,
}
