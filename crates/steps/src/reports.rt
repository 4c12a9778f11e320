// Why a run ended.
#[derive(Clone, Copy)]
pub enum Reason {
    Host,
    Stopped,
    Finished,
    Spent,
}

// How a run ended: after `count` steps, at the word at `pc` of a domain. `first` and `second` are x10 and x11 for `Host` and
// `Finished`, the cause and its detail for `Stopped`, and 0 for `Spent`, whose domain and pc are those that go next.
#[derive(Clone, Copy)]
pub struct Report {
    pub reason: Reason,
    pub count: u32,
    pub domain: u32,
    pub pc: u32,
    pub first: u32,
    pub second: u32,
}
