ghost use Rattle.std.specs.Prelude.{◌≡◌};
ghost use Rattle.steps.specs.States.{moved};
ghost use Rattle.steps.specs.Fence.{Stays, Executes, Faultless, Crosses, Kept};

#[derive(Clone, Copy)]
pub enum State {
    Idle,
    Active,
    AtHost,
    Stopped,
}

// What happens to a domain.
#[derive(Clone, Copy)]
pub enum Event {
    Entered,
    Host,
    Reply,
    Return,
    Stop,
    Cut,
}

impl State {
    // What follows; an event that cannot come in a state changes nothing. The laws are those of the steps that
    // this decides.
    pub fn after(self, event: Event) -> State
        ensures is { result ≡ moved self event }
        ensures stays { Stays }
        ensures executes { Executes }
        ensures faultless { Faultless }
        ensures crosses { Crosses }
        ensures kept { Kept }
    {
        self.following(event)
    }

    fn following(self, event: Event) -> State
        ensures { result ≡ moved self event }
    {
        match (self, event) {
            (State::Idle, Event::Entered) => State::Active,
            (State::Active, Event::Host) => State::AtHost,
            (State::AtHost, Event::Reply) => State::Active,
            (State::Active, Event::Return) => State::Idle,
            (State::Active, Event::Stop) => State::Stopped,
            (State::Active, Event::Cut) => State::Stopped,
            (state, _) => state,
        }
    }
}
