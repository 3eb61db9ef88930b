// The loop that lowers items and those inside them, with a stack of the nodes that are open.
// The stack in place of recursion, and `let .. else` for names, are named forms (docs/DECISIONS.md, 8).
ghost use Rattle.lower.specs.Keeping.{Keeps};

use items::ids::{FileAstId, RawVisibilityId};
use items::records::{ExternBlock, Mod, ModKind};
use items::rows::{BigModItem, BigRow, ModItem, SmallModItem, SmallRow};
use lower::lowering::Lowering;
use lower::small::{lower_impl, lower_macro_rules};
use paths::name::Name;
use syntax::kind::SyntaxKind;
use syntax::node::Node;
use syntax::refusal::Refusal;
use syntax::source::SyntaxSource;
use syntax::walk::{NodeRef, sibling_at};
use tables::table::Table;

// What is open: an item whose children are lowered before it gets its id.
#[derive(Clone, Copy)]
enum Container {
    Module {
        name: Name,
        visibility: RawVisibilityId,
    },
    ExternBlock,
}

#[derive(Clone, Copy)]
struct Open {
    container: Container,
    node: NodeRef,
    // where the ids of its children begin
    from: usize,
    // where what stands around it ends
    outer: u32,
}

// Items stand at most this deep.
const MAX_DEPTH: usize = 40;

// What fills the stack. No plainer with one node of zeros for this and the tables of a form: it would be a public name for a filler.
const NOTHING_OPEN: Open = Open {
    container: Container::ExternBlock,
    node: NodeRef {
        number: 0,
        node: Node {
            kind: 0,
            end: 0,
            text: 0,
            mark: 0,
            from: 0,
            to: 0,
        },
    },
    from: 0,
    outer: 0,
};

// Lowers the items among the siblings from `start` to `stop`.
pub(crate) fn lower_items<S: SyntaxSource>(
    lowering: &mut Lowering<S>,
    start: u32,
    stop: u32,
) -> Result<(), Refusal>
    ensures { Keeps lowering.old lowering.new }
{
    let mut stack: Table<Open, MAX_DEPTH> = Table::new(NOTHING_OPEN);
    let mut at = start;
    let mut end = stop;
    loop {
        let Some(item) = sibling_at(lowering.source, at, end) else {
            let Some(open) = stack.pop() else {
                return Ok(());
            };
            close(lowering, open)?;
            end = open.outer;
            continue;
        };
        at = item.node.end;
        if let Some(container) = lower_mod_item(lowering, item)? {
            let from = lowering.tables.next_id_place();
            let open = Open {
                container,
                node: item,
                from,
                outer: end,
            };
            if stack.push(open).is_ok() {
                at = item.first_child();
                end = item.node.end;
            }
        }
    }
}

// Lowers a node that has no items inside it, or answers what it opens.
fn lower_mod_item<S: SyntaxSource>(
    lowering: &mut Lowering<S>,
    item: NodeRef,
) -> Result<Option<Container>, Refusal>
    ensures { Keeps lowering.old lowering.new }
{
    let Ok(kind) = SyntaxKind::try_from(item.node.kind) else {
        return Ok(None);
    };
    match kind {
        // The mark 0 of a module with braces is read here alone: an enum would repeat this one test.
        SyntaxKind::Module if item.node.mark == 0 => open_module(lowering, item),
        SyntaxKind::ExternBlock => Ok(Some(Container::ExternBlock)),
        _ => {
            if let Some(record) = lower_record(lowering, item, kind)? {
                add(lowering, item, record)?;
            }
            Ok(None)
        }
    }
}

// The record of a node that has no items inside it, unless it is passed over.
fn lower_record<S: SyntaxSource>(
    lowering: &mut Lowering<S>,
    item: NodeRef,
    kind: SyntaxKind,
) -> Result<Option<ModItem>, Refusal>
    ensures { Keeps lowering.old lowering.new }
{
    Ok(match kind {
        SyntaxKind::Struct => lowering.lower_struct(item)?.map(ModItem::Big),
        SyntaxKind::Union => lowering.lower_union(item)?.map(ModItem::Small),
        SyntaxKind::Enum => lowering.lower_enum(item)?.map(ModItem::Small),
        SyntaxKind::Fn => lowering.lower_function(item)?.map(ModItem::Small),
        SyntaxKind::TypeAlias => lowering.lower_type_alias(item)?.map(ModItem::Small),
        SyntaxKind::Static => lowering.lower_static(item)?.map(ModItem::Small),
        SyntaxKind::Const => lowering.lower_const(item)?.map(ModItem::Small),
        SyntaxKind::Module => lowering.lower_outline_module(item)?.map(ModItem::Big),
        SyntaxKind::Trait => lowering.lower_trait(item)?.map(ModItem::Small),
        SyntaxKind::Impl => Some(ModItem::Small(lower_impl(item))),
        SyntaxKind::Use => lowering.lower_use(item)?.map(ModItem::Big),
        SyntaxKind::ExternCrate => lowering.lower_extern_crate(item)?.map(ModItem::Big),
        SyntaxKind::MacroCall => lowering.lower_macro_call(item)?.map(ModItem::Small),
        SyntaxKind::MacroRules => lower_macro_rules(item).map(ModItem::Small),
        SyntaxKind::MacroDef => lowering.lower_macro_def(item)?.map(ModItem::Small),
        _ => None,
    })
}

// A module with a name is opened.
fn open_module<S: SyntaxSource>(
    lowering: &mut Lowering<S>,
    module: NodeRef,
) -> Result<Option<Container>, Refusal>
    ensures { Keeps lowering.old lowering.new }
{
    let Some(name) = Name::of_text(module.node.text) else {
        return Ok(None);
    };
    let visibility = lowering.lower_visibility(module)?;
    Ok(Some(Container::Module { name, visibility }))
}

// Gives a node that was open its record and id.
fn close<S: SyntaxSource>(lowering: &mut Lowering<S>, open: Open) -> Result<(), Refusal>
    ensures { Keeps lowering.old lowering.new }
{
    let items = lowering.tables.alloc_children(open.from)?;
    let item = match open.container {
        Container::Module { name, visibility } => ModItem::Big(BigModItem::Mod(Mod {
            name,
            visibility,
            kind: ModKind::Inline { items },
        })),
        Container::ExternBlock => {
            ModItem::Small(SmallModItem::ExternBlock(ExternBlock { children: items }))
        }
    };
    add(lowering, open.node, item)
}

// Collects the attributes of a node, and gives its record an id.
fn add<S: SyntaxSource>(
    lowering: &mut Lowering<S>,
    node: NodeRef,
    item: ModItem,
) -> Result<(), Refusal>
    ensures { Keeps lowering.old lowering.new }
{
    let attrs = lowering.lower_attrs(node)?;
    let id = FileAstId { node: node.number };
    match item {
        ModItem::Small(item) => lowering.tables.alloc_small(SmallRow { id, item, attrs }),
        ModItem::Big(item) => lowering.tables.alloc_big(BigRow { id, item, attrs }),
    }
}
