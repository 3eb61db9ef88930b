// Visibilities, as they are written and as a tree holds them.
ghost use Rattle.std.specs.Prelude.{◌≡◌, ◌<◌, true, List, [], length, IfOk};
ghost use Rattle.tables.specs.Held.{held, marked};
ghost use Rattle.tables.specs.Sets.{distinct};
ghost use Rattle.items.specs.Recorded.{Recorded, RoomFor, same_visibility, visibility_equivalence};
ghost use Rattle.items.specs.Records.{is_explicit};
ghost use Rattle.items.specs.Visible.{visibility_at};
ghost use Rattle.items.specs.declared.visibility.RawVisibility.{RawVisibility as Row};

use crate::ids::RawVisibilityId;
use paths::interned::PathId;
use paths::mod_path::ModPath;
use syntax::refusal::Refusal;
use tables::index_set::KeyTable;
use tables::key_set::{KeySet, insert_key};
use tables::table::Table;

// Whether a private visibility is written out.
#[derive(Clone, Copy, PartialEq, Eq, Debug)]
pub enum VisibilityExplicitness {
    Explicit,
    Implicit,
}

impl VisibilityExplicitness {
    pub fn is_explicit(self) -> bool
        ensures { result ≡ is_explicit self }
    {
        self == VisibilityExplicitness::Explicit
    }
}

// A visibility as a tree holds it.
#[derive(Clone, Copy, PartialEq, Eq, Debug)]
pub enum RawVisibility {
    // `pub(in path)` or `pub(super)`
    Module(PathId, VisibilityExplicitness),
    // `pub(self)`, or nothing
    PubSelf(VisibilityExplicitness),
    // `pub(crate)`
    PubCrate,
    // `pub`
    Public,
}

// A visibility as it is written: its path is in no table.
#[derive(Clone, Copy)]
pub enum WrittenVisibility {
    Module(ModPath),
    PubSelf(VisibilityExplicitness),
    PubCrate,
    Public,
}

// The module visibilities of a tree, no two alike.
#[derive(Clone, Copy)]
pub struct Visibilities {
    rows: Table<RawVisibility, 128>,
    ghost apart: { (distinct same_visibility (held rows) ≡ true) × (distinct same_visibility (marked rows) ≡ true) },
}

impl KeySet<RawVisibility> for Visibilities {
    ghost Meant = { Row };

    ghost meant = { λ v. v };

    ghost same = { same_visibility };

    ghost equivalence = { visibility_equivalence };

    ghost keys = { λ s. held s.rows };

    ghost Marked = { List Row };

    ghost marked = { λ s. marked s.rows };

    ghost apart = { λ s. s.apart.0 };

    ghost room = { RoomFor };

    fn key_count(&self) -> usize {
        self.rows.len()
    }

    fn is_alike(&self, index: usize, key: &RawVisibility) -> bool {
        self.rows.get(index) == Some(*key)
    }

    fn push_key(&mut self, key: &RawVisibility) -> Result<usize, Refusal> {
        self.rows.push(*key)
    }
}

impl KeyTable<RawVisibility> for Visibilities {
    ghost count = { λ s. length (held s.rows) };

    ghost appends = { λ s key r t. (marked t.rows ≡ marked s.rows) × IfOk r (λ i. i < 128) };

    fn count(&self) -> usize {
        self.rows.len()
    }

    fn is_at(&self, index: usize, key: &RawVisibility) -> bool {
        self.is_alike(index, key)
    }

    // A visibility that is held stays as it is.
    fn append(&mut self, key: &RawVisibility) -> Result<usize, Refusal> {
        insert_key(self, key)
    }
}

impl Visibilities {
    pub fn new() -> Visibilities
        ensures held { held result.rows ≡ [] }
        ensures marked { marked result.rows ≡ [] }
    {
        Visibilities {
            rows: Table::new(RawVisibility::Public),
        }
    }

    // The number of a module visibility, which is added where the table has none like it.
    pub fn record(&mut self, visibility: RawVisibility) -> Result<RawVisibilityId, Refusal>
        ensures records { Recorded (held self.old.rows) visibility result (held self.new.rows) }
        ensures marked { marked self.new.rows ≡ marked self.old.rows }
    {
        let index = insert_key(self, &visibility)?;
        Ok(RawVisibilityId {
            number: index as u32,
        })
    }

    // The visibility that a number names: one of the four without a row, or a row.
    pub fn get(&self, id: RawVisibilityId) -> Option<RawVisibility>
        ensures { result ≡ visibility_at (held self.now.rows) id.number }
    {
        match id {
            RawVisibilityId::PUB => Some(RawVisibility::Public),
            RawVisibilityId::PRIV_IMPLICIT => {
                Some(RawVisibility::PubSelf(VisibilityExplicitness::Implicit))
            }
            RawVisibilityId::PRIV_EXPLICIT => {
                Some(RawVisibility::PubSelf(VisibilityExplicitness::Explicit))
            }
            RawVisibilityId::PUB_CRATE => Some(RawVisibility::PubCrate),
            RawVisibilityId { number } => self.rows.get(number as usize),
        }
    }

    pub fn set_mark(&mut self)
        ensures held { held self.new.rows ≡ held self.old.rows }
        ensures marked { marked self.new.rows ≡ held self.old.rows }
    {
        self.rows.set_mark();
    }

    pub fn go_back(&mut self)
        ensures held { held self.new.rows ≡ marked self.old.rows }
        ensures marked { marked self.new.rows ≡ marked self.old.rows }
    {
        self.rows.go_back();
    }
}
