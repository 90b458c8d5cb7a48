// How often something was given: not at all, once, or several times. Of several none is kept.
ghost use Rattle.std.specs.Prelude.{◌≡◌};
ghost use Rattle.values.specs.Given.{given_more, given_once};

// None and Several are cases beside One: an Option of a Result would nest each match (decision 125).
#[derive(Clone, Copy)]
pub enum Given<T> {
    None,
    One(T),
    Several,
}

impl<T: Copy> Given<T> {
    // With one more.
    #[tactic(auto, unfolding(crate::specs::Given::given_more))]
    pub fn with(self, x: T) -> Given<T>
        ensures { result ≡ given_more self x }
    {
        match self {
            Given::None => Given::One(x),
            Given::One(_) => Given::Several,
            Given::Several => Given::Several,
        }
    }

    // What was given, where it was given once.
    #[tactic(auto, unfolding(crate::specs::Given::given_once))]
    pub fn once(self) -> Option<T>
        ensures { result ≡ given_once self }
    {
        match self {
            Given::None => None,
            Given::One(x) => Some(x),
            Given::Several => None,
        }
    }
}
