// Windows that attack, and where each is refused.
#![tactic(auto)]

#[cfg(test)]
mod attacks;
#[cfg(test)]
mod limits;
#[cfg(test)]
mod windows;
