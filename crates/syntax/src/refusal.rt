// Why a call is declined. Each refusal has a number.
ghost use Rattle.std.specs.Prelude.{◌≡◌, Some};
ghost use Rattle.syntax.specs.Refusals.{number_of, text_of};

use std::error::Error;
use std::fmt;

// How long a caller's buffer or lists have to be.
#[derive(Clone, Copy, PartialEq, Eq, Debug)]
pub enum Needed {
    Bytes(usize),
    // of an expansion
    Imports { imports: usize, names: usize },
    // of a use tree and its mapping
    UseTree { nodes: usize, mapping: usize },
}

#[derive(Clone, Copy, PartialEq, Eq, Debug)]
pub enum Refusal {
    // the form is too short or too long, or a text lies outside its bytes
    Form,
    // a packed number is over 32 bits or not the shortest
    Number,
    // a count, a text's length, a range or the law of nodes is broken
    Law,
    // the node is not an item child of the root
    NotAnItem,
    // root lowering after a lowering call that was not refused
    NotFirst,
    // some table would pass its limit
    TableFull,
    // an item's index is 2,147,483,647 or more
    IndexTooLarge,
    // an id, place, attribute or visibility number names nothing, or no use item
    NotFound,
    // the caller's list or buffer is too short
    TooShort(Needed),
    // a text to print is not in the source
    MissingText,
}

impl From<Refusal> for u32 {
    ghost from_gives = { λ refusal number. number ≡ number_of refusal };

    fn from(refusal: Refusal) -> u32 {
        match refusal {
            Refusal::Form => 1,
            Refusal::Number => 2,
            Refusal::Law => 3,
            Refusal::NotAnItem => 4,
            Refusal::NotFirst => 5,
            Refusal::TableFull => 6,
            Refusal::IndexTooLarge => 7,
            Refusal::NotFound => 8,
            Refusal::TooShort(_) => 9,
            Refusal::MissingText => 10,
        }
    }
}

impl fmt::Display for Refusal {
    ghost output = { λ refusal. Some (text_of refusal) };

    fn fmt<W: fmt::Write>(&self, f: &mut fmt::Formatter<W>) -> fmt::Result {
        write!(f, "refused {}", u32::from(*self))
    }
}

impl Error for Refusal {}
