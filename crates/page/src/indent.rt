// How deep the text stands, put back by a guard.
ghost use Rattle.std.specs.Prelude.{◌≡◌};

#[derive(Clone, Copy)]
pub struct Indent {
    pub level: usize,
}

impl Indent {
    pub fn new() -> Indent {
        Indent { level: 0 }
    }
}

// Puts the level back when it goes.
pub struct Indented<'a> {
    pub indent: &'a mut Indent,
    pub before: usize,
}

impl Drop for Indented<'_> {
    fn drop(self)
        ensures { self.exit.0.now ≡ record { level = self.entry.before } }
    {
        self.indent.level = self.before;
        let Indented {
            indent: _,
            before: _,
        } = self;
    }
}
