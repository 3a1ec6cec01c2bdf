// The keys of the lines, and the value of a line as a part of the input.
ghost use Rattle.std.specs.Prelude.{IsTrue, ◌↔◌};
ghost use Rattle.taskfile.specs.Entries.{Between};

#[derive(Clone, Copy)]
pub enum Key {
    Facts,
    Moves,
    Start,
    Goal,
    Group,
    Price,
    Needs,
    Makes,
    Breaks,
}

// What stands after the `=`, not yet looked at.
#[derive(Clone, Copy)]
pub enum Value<'a> {
    Number(&'a [u8]),
    Set(&'a [u8]),
}

impl Key {
    // Whether a line of this key may have this number, or this fact in its set.
    pub fn allows(self, n: u32) -> bool
        ensures { IsTrue result ↔ Between self n }
    {
        match self {
            Key::Facts => (1..=64).contains(&n),
            Key::Moves => n <= 1_024,
            Key::Group => n <= 7,
            Key::Price => n <= 65_535,
            Key::Start | Key::Goal | Key::Needs | Key::Makes | Key::Breaks => n < 64,
        }
    }
}
