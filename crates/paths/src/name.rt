// Names, by the number of their text.
ghost use Rattle.std.specs.Prelude.{◌≡◌};
ghost use Rattle.paths.specs.Names.{name_of};

#[derive(Clone, Copy, PartialEq, Eq, Debug)]
pub enum Name {
    // the text of that number; no two texts of a source are equal
    Text(u32),
    // `[missing name]`, which is no text's
    Missing,
}

impl Name {
    // The name that a node with this text number has.
    // The project's own form, `let .. else` at the callers, needs an Option; a TryFrom would have an error that says nothing.
    pub fn of_text(text: u32) -> Option<Name>
        ensures { result ≡ name_of text }
    {
        (text != 0).then_some(Name::Text(text))
    }
}
