// Marking what is there, and going back to it.
// No plainer by a trait: the two bodies would still name nine tables of three types.
#![tactic(auto, unfolding(crate::specs::Contents::marked_of))]

ghost use Rattle.std.specs.Prelude.{◌≡◌};
ghost use Rattle.tree_tables.specs.Contents.{held_of, marked_of};

use crate::tree::TreeTables;

impl TreeTables {
    pub fn set_mark(&mut self)
        ensures held { held_of self.new ≡ held_of self.old }
        ensures marked { marked_of self.new ≡ held_of self.old }
    {
        self.small.set_mark();
        self.big.set_mark();
        self.ids.set_mark();
        self.children.set_mark();
        self.attrs.set_mark();
        self.visibilities.set_mark();
        self.ctors.set_mark();
        self.uses.set_mark();
        self.paths.set_mark();
    }

    pub fn go_back(&mut self)
        ensures held { held_of self.new ≡ marked_of self.old }
        ensures marked { marked_of self.new ≡ marked_of self.old }
    {
        self.small.go_back();
        self.big.go_back();
        self.ids.go_back();
        self.children.go_back();
        self.attrs.go_back();
        self.visibilities.go_back();
        self.ctors.go_back();
        self.uses.go_back();
        self.paths.go_back();
    }
}
