// Numbers that name the parts of a tree.
ghost use Rattle.std.specs.Prelude.{◌≡◌, ◌+◌, ◌*◌, ◌/◌, ◌%◌, ◌<◌, ◌≤◌, true, MatchResult, ◌==◌};
ghost use Rattle.syntax.specs.declared.refusal.Refusal.TheVariants.{IndexTooLarge};

use syntax::refusal::Refusal;

// An item's node number.
#[derive(Clone, Copy, PartialEq, Eq, Debug)]
pub struct FileAstId {
    pub node: u32,
}

// The context of a span; every span has context 0.
#[derive(Clone, Copy, PartialEq, Eq, Debug)]
pub struct SyntaxContext {
    pub number: u32,
}

impl SyntaxContext {
    pub const ROOT: SyntaxContext = SyntaxContext { number: 0 };
}

// Names an item: twice its index among the small ones, or one more than twice its index among the big ones.
#[derive(Clone, Copy, PartialEq, Eq, Debug)]
pub struct ModItemId {
    pub index: u32,
}

// An index that a small or a big item cannot have.
const TOO_LARGE: u32 = 2_147_483_647;

impl ModItemId {
    // Owns the attributes of the top level.
    pub const TOP_OWNER: ModItemId = ModItemId { index: u32::MAX };

    pub fn new_small(index: u32) -> Result<ModItemId, Refusal>
        ensures { MatchResult result (λ id. (id.index ≡ 2 * index) × (index < 2147483647)) (λ e. (e ≡ IndexTooLarge) × (2147483647 ≤ index)) }
    {
        if index >= TOO_LARGE {
            return Err(Refusal::IndexTooLarge);
        }
        Ok(ModItemId { index: 2 * index })
    }

    pub fn new_big(index: u32) -> Result<ModItemId, Refusal>
        ensures { MatchResult result (λ id. (id.index ≡ 2 * index + 1) × (index < 2147483647)) (λ e. (e ≡ IndexTooLarge) × (2147483647 ≤ index)) }
    {
        let small = ModItemId::new_small(index)?;
        Ok(ModItemId {
            index: small.index + 1,
        })
    }

    // Whether the id is a small item's.
    pub fn is_small(self) -> bool
        ensures { result ≡ (self.index % 2 == 0) }
    {
        self.index % 2 == 0
    }

    // The index among the items of its size.
    pub fn row(self) -> usize
        ensures { result ≡ self.index / 2 }
    {
        (self.index / 2) as usize
    }
}

// Whether the id of a small item and that of a big one differ, and each gives back its size and its index: they always do.
pub fn ids_stand(small: u32, big: u32) -> bool
    ensures { result ≡ true }
{
    let Ok(a) = ModItemId::new_small(small) else {
        return true;
    };
    let Ok(b) = ModItemId::new_big(big) else {
        return true;
    };
    let sizes = a.is_small() && !b.is_small();
    let rows = a.row() == small as usize && b.row() == big as usize;
    sizes && rows && a != b
}

// Names a visibility of a tree.
#[derive(Clone, Copy, PartialEq, Eq, Debug)]
pub struct RawVisibilityId {
    pub number: u32,
}

impl RawVisibilityId {
    pub const PUB: RawVisibilityId = RawVisibilityId {
        number: 4_294_967_295,
    };

    pub const PRIV_IMPLICIT: RawVisibilityId = RawVisibilityId {
        number: 4_294_967_294,
    };

    pub const PRIV_EXPLICIT: RawVisibilityId = RawVisibilityId {
        number: 4_294_967_293,
    };

    pub const PUB_CRATE: RawVisibilityId = RawVisibilityId {
        number: 4_294_967_292,
    };
}
