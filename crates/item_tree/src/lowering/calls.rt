// The lowering calls.
ghost use Rattle.std.specs.Prelude.{◌≡◌, true, false, length, MatchResult};
ghost use Rattle.syntax.specs.declared.refusal.Refusal.TheVariants.{NotFirst as TooLate};
ghost use Rattle.tree_tables.specs.Contents.{empty, held_of, marked_of};
ghost use Rattle.lower.specs.Keeping.{Keeps};

use crate::lowering::Ctx;
use crate::lowering::walk::lower_items;
use items::attrs::AttrsOrCfg;
use items::ids::ModItemId;
use lower::lowering::Lowering;
use syntax::refusal::Refusal;
use syntax::source::SyntaxSource;
use syntax::walk::{NodeRef, children};
use tree_tables::tree::TreeTables;

impl Ctx {
    // A new tree, which holds nothing.
    pub fn new() -> Ctx
        ensures { (held_of result.tree ≡ empty) × (result.begun ≡ false) }
    {
        Ctx {
            tree: TreeTables::new(),
            begun: false,
        }
    }

    // Lowers an item child of the root and appends it to the top level. Answers its id, or none where it is passed over.
    pub fn lower_mod_item<S: SyntaxSource>(
        &mut self,
        source: &S,
        node: u32,
    ) -> Result<Option<ModItemId>, Refusal>
        ensures { MatchResult result (λ _. self.new.begun ≡ true) (λ _. (held_of self.new.tree ≡ held_of self.old.tree) × (self.new.begun ≡ self.old.begun)) }
    {
        let item = root_item(source, node).ok_or(Refusal::NotAnItem)?;
        self.tree.set_mark();
        let place = self.tree.next_id_place();
        let mut lowering = Lowering {
            tables: &mut self.tree,
            source,
        };
        let lowered = lower_items(&mut lowering, node, item.node.end);
        self.end_call(lowered)?;
        Ok(self.tree.id_at(place))
    }

    // Root lowering: the attributes of the file, then all its items. Answers how many stand at the top level.
    pub fn lower_module_items<S: SyntaxSource>(&mut self, source: &S) -> Result<u32, Refusal>
        ensures answers { MatchResult result (λ count. (self.old.begun ≡ false) × (self.new.begun ≡ true) × (count ≡ length (held_of self.new.tree).ids)) (λ _. (held_of self.new.tree ≡ held_of self.old.tree) × (self.new.begun ≡ self.old.begun)) }
        ensures late { self.old.begun ≡ true → MatchResult result (λ _. ⊥) (λ e. e ≡ TooLate) }
    {
        if self.begun {
            return Err(Refusal::NotFirst);
        }
        self.tree.set_mark();
        let mut lowering = Lowering {
            tables: &mut self.tree,
            source,
        };
        let lowered = lower_file(&mut lowering);
        let top = self.end_call(lowered)?;
        self.tree.set_top(top);
        Ok(self.tree.next_id_place() as u32)
    }

    // What a call lowered stays, or is gone where it was refused.
    fn end_call<T>(&mut self, lowered: Result<T, Refusal>) -> Result<T, Refusal>
        ensures { MatchResult result (λ _. self.new.begun ≡ true) (λ _. (held_of self.new.tree ≡ marked_of self.old.tree) × (self.new.begun ≡ self.old.begun)) }
    {
        if lowered.is_ok() {
            self.begun = true;
        } else {
            self.tree.go_back();
        }
        lowered
    }
}

// The child of the root that has this number, if it is an item.
fn root_item<S: SyntaxSource>(source: &S, number: u32) -> Option<NodeRef> {
    let root = NodeRef {
        number: 0,
        node: source.node(0)?,
    };
    children(source, root)
        .find(|child| child.number == number)
        .filter(|child| child.is_item())
}

// All that a file holds; answers its own attributes.
fn lower_file<S: SyntaxSource>(lowering: &mut Lowering<S>) -> Result<Option<AttrsOrCfg>, Refusal>
    ensures { Keeps lowering.old lowering.new }
{
    let Some(node) = lowering.source.node(0) else {
        return Ok(None);
    };
    let file = NodeRef { number: 0, node };
    let top = lowering.lower_attrs(file)?;
    lower_items(lowering, file.first_child(), node.end)?;
    Ok(top)
}
