// The least source with a name in it: a file of one module, `mod NAME;`.
ghost use Rattle.std.specs.Prelude.{◌≡◌, ◌≤◌, true, length};
ghost use Rattle.syntax.specs.Law.{lawful};
ghost use Rattle.syntax_tests.specs.OneModule.{module_meaning};

use crate::count::node_count;
use syntax::kind::SyntaxKind;
use syntax::node::Node;
use syntax::source::SyntaxSource;

#[derive(Clone, Copy)]
pub struct OneModule<'a> {
    name: &'a [u8],
    ghost ruled: { lawful (module_meaning name.now) ≡ true },
}

const FILE: Node = Node {
    kind: SyntaxKind::File as u32,
    end: 2,
    text: 0,
    mark: 0,
    from: 0,
    to: 0,
};

const MODULE: Node = Node {
    kind: SyntaxKind::Module as u32,
    end: 2,
    text: 1,
    mark: 1,
    from: 0,
    to: 0,
};

impl<'a> SyntaxSource for OneModule<'a> {
    ghost meaning = { λ source. module_meaning source.name.now };

    ghost law = { λ source. source.ruled };

    fn node(&self, number: u32) -> Option<Node> {
        [FILE, MODULE].get(number as usize).copied()
    }

    fn text(&self, number: u32) -> Option<&[u8]> {
        (number == 1).then_some(self.name)
    }
}

impl<'a> OneModule<'a> {
    pub fn new(name: &'a [u8]) -> OneModule<'a>
        requires { (1 ≤ length name.now) × (length name.now ≤ 255) }
        ensures { result.name.now ≡ name.now }
    {
        OneModule { name }
    }
}

// What is proved over every source holds of this one.
pub fn count_of(module: &OneModule) -> u32
    ensures { result ≡ 2 }
{
    node_count(module)
}

#[cfg(test)]
mod tests {
    use super::*;
    use std::test::Fail;

    #[test]
    fn one_module_is_a_source(rt: HostRuntime) -> Result<(), Fail> {
        let module = OneModule::new(b"net");
        assert_eq!(rt; count_of(&module), 2);
        assert!(rt;
            module.node(2).is_none() && module.text(0).is_none() && module.text(2).is_none()
        );
        assert_eq!(rt; module.text(1).ok_or("no text")?, b"net".as_slice());
        Ok(())
    }
}
