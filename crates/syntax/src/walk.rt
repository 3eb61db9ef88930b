// Going from a node to its children.
ghost use Rattle.std.specs.Prelude.{◌≡◌, ◌+◌, ◌-◌, ◌<◌, ◌≤◌, [], ◌∷◌, IfSome, length, MatchOption};
ghost use Rattle.std.specs.Iterator.{YieldsFirst, item_count};
ghost use Rattle.std.specs.List.{All};
ghost use Rattle.syntax.specs.Children.{child_of, children, Leads, row, Row, StandsIn, walk};
ghost use Rattle.syntax.specs.Kinds.{is_item, number_of};
ghost use Rattle.syntax.specs.Table.{is as is_kind};

use crate::kind::{SyntaxKind, is_item};
use crate::node::Node;
use crate::source::SyntaxSource;
use std::marker::Model;

// A node with its number.
#[derive(Clone, Copy)]
pub struct NodeRef {
    pub number: u32,
    pub node: Node,
}

impl NodeRef {
    // Where the first child stands, if there is one.
    pub fn first_child(self) -> u32
        ensures above { self.number ≤ result }
        ensures next { self.number < 4294967295 → result ≡ self.number + 1 }
    {
        self.number.saturating_add(1)
    }

    // Whether this is an item.
    pub fn is_item(self) -> bool
        ensures { result ≡ is_item self.node.kind }
    {
        is_item(self.node.kind)
    }

    // Whether this is a node of that kind.
    pub fn is(self, kind: SyntaxKind) -> bool
        ensures { result ≡ is_kind kind self.node.kind }
    {
        self.node.kind == u32::from(kind)
    }
}

// The node that stands at `at` among siblings that end before `end`.
pub fn sibling_at<S: SyntaxSource>(source: &S, at: u32, end: u32) -> Option<NodeRef>
    ensures bounds { IfSome result (λ x. (x.number ≡ at) × (at < x.node.end) × (x.node.end ≤ end)) }
    ensures first { Row (S.SyntaxSource.meaning source.now) at end → MatchOption result (row (S.SyntaxSource.meaning source.now) at end ≡ []) (Leads (S.SyntaxSource.meaning source.now) at end) }
    ensures walk { MatchOption result (walk (S.SyntaxSource.meaning source.now) at end ≡ []) (λ x. walk (S.SyntaxSource.meaning source.now) at end ≡ x ∷ walk (S.SyntaxSource.meaning source.now) x.node.end end) }
{
    if at >= end {
        return None;
    }
    let Some(node) = source.node(at) else {
        return None;
    };
    if node.end <= at || node.end > end {
        return None;
    }
    Some(NodeRef { number: at, node })
}

// A walk over siblings, seen as the list of those that are left.
#[derive(Drop)]
pub struct Walk<'a, S: SyntaxSource> {
    source: &'a S,
    at: u32,
    end: u32,
}

impl<'a, S: SyntaxSource> Model for Walk<'a, S> {
    ghost use Rattle.std.specs.Prelude.{List};
    ghost use Rattle.syntax.specs.declared.walk.NodeRef.{NodeRef};
    ghost use Rattle.syntax.specs.Children.{walk};

    ghost Value = { List NodeRef };

    ghost view = { λ it. walk (S.SyntaxSource.meaning it.source.now) it.at it.end };
}

impl<'a, S: SyntaxSource> Iterator for Walk<'a, S> {
    type Item = NodeRef;

    ghost next_gives = { YieldsFirst (λ rest. rest) };

    ghost remaining = { item_count (λ rest. rest) };

    fn next(&mut self) -> Option<NodeRef> {
        let child = sibling_at(self.source, self.at, self.end)?;
        self.at = child.node.end;
        Some(child)
    }
}

// The siblings that stand from number `from` on, up to before `to`.
pub fn siblings<S: SyntaxSource>(source: &S, from: u32, to: u32) -> Walk<'_, S>
    ensures walked { result ≡ walk (S.SyntaxSource.meaning source.now) from to }
    ensures own { Row (S.SyntaxSource.meaning source.now) from to → result ≡ row (S.SyntaxSource.meaning source.now) from to }
    ensures stand { All (StandsIn (S.SyntaxSource.meaning source.now)) result }
    ensures few { length result ≤ to - from }
{
    Walk {
        source,
        at: from,
        end: to,
    }
}

// The children of a node.
pub fn children<S: SyntaxSource>(source: &S, parent: NodeRef) -> Walk<'_, S>
    ensures walked { result ≡ walk (S.SyntaxSource.meaning source.now) (parent.number + 1) parent.node.end }
    ensures own { StandsIn (S.SyntaxSource.meaning source.now) parent → result ≡ children (S.SyntaxSource.meaning source.now) parent }
    ensures stand { All (StandsIn (S.SyntaxSource.meaning source.now)) result }
    ensures few { length result ≤ parent.node.end }
{
    siblings(source, parent.first_child(), parent.node.end)
}

// The first child of that kind.
pub fn child_of_kind<S: SyntaxSource>(
    source: &S,
    parent: NodeRef,
    kind: SyntaxKind,
) -> Option<NodeRef>
    ensures kind { IfSome result (λ x. x.node.kind ≡ number_of kind) }
    ensures first { StandsIn (S.SyntaxSource.meaning source.now) parent → result ≡ child_of kind (S.SyntaxSource.meaning source.now) parent }
    ensures stands { StandsIn (S.SyntaxSource.meaning source.now) parent → IfSome result (StandsIn (S.SyntaxSource.meaning source.now)) }
{
    children(source, parent).find(|child| child.is(kind))
}
