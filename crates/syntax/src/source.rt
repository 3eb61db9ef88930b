// The interface of a syntax source: what it means, and how it is read.
ghost use Rattle.std.specs.Prelude.{◌≡◌, true};
ghost use Rattle.std.specs.Option.{option_map};
ghost use Rattle.syntax.specs.Law.{lawful};
ghost use Rattle.syntax.specs.Meaning.{Meaning, node_at, text_at};

use crate::node::Node;

pub trait SyntaxSource {
    // the nodes, numbered from 0, and the texts, numbered from 1
    ghost meaning: { Self → Meaning };

    // every source keeps the law
    ghost law: { (s : Self) → lawful (meaning s) ≡ true };

    // The node of that number, where there is one.
    fn node(&self, number: u32) -> Option<Node>
        ensures { result ≡ node_at (meaning self.now) number };

    // The text of that number, where there is one: a part of the caller's bytes.
    fn text(&self, number: u32) -> Option<&[u8]>
        ensures { option_map (λ x. x.now) result ≡ text_at (meaning self.now) number };
}
