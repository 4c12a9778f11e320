// The values that come with a refusal's number, three at most. An enum is `Copy`, as a refusal is, and callers match on it.
#[derive(Clone, Copy)]
pub enum Values {
    Empty,
    One(usize),
    Two(usize, usize),
    Three(usize, usize, usize),
}
