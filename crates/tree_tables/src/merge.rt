// Putting one attribute list before another. What is marked afterwards is in each contract, as where rows are added.
#![tactic(auto, using(crate::proofs::Parts::part_append), unfolding(crate::specs::Contents::marked_of, crate::specs::Growth::Became, crate::specs::Lists::Joins, crate::specs::Lists::Merges))]

ghost use Rattle.std.specs.Prelude.{◌≡◌};
ghost use Rattle.tables.specs.Parts.{Inside};
ghost use Rattle.items.specs.Records.{part_of};
ghost use Rattle.tree_tables.specs.Contents.{shown_of, marked_of};
ghost use Rattle.tree_tables.specs.Lists.{Joins, Merges};

use crate::tree::TreeTables;
use items::attrs::{AttrsOrCfg, AttrsOwned};
use syntax::refusal::Refusal;

impl TreeTables {
    // `first` stands before `second` in the source. Nothing is taken behind a false condition.
    pub fn merge(&mut self, first: AttrsOrCfg, second: AttrsOrCfg) -> Result<AttrsOrCfg, Refusal>
        ensures merges { Merges first second self.old self.new result }
        ensures marked { marked_of self.new ≡ marked_of self.old }
    {
        if self.attrs.part(first.part()).is_none() || self.attrs.part(second.part()).is_none() {
            return Err(Refusal::NotFound);
        }
        self.merge_known(first, second)
    }

    // The same, of lists that are parts of the table.
    fn merge_known(&mut self, first: AttrsOrCfg, second: AttrsOrCfg) -> Result<AttrsOrCfg, Refusal>
        requires first { Inside (shown_of self.old).attrs (part_of first) }
        requires second { Inside (shown_of self.old).attrs (part_of second) }
        ensures merges { Merges first second self.old self.new result }
        ensures marked { marked_of self.new ≡ marked_of self.old }
    {
        let AttrsOrCfg::Enabled { attrs: before } = first else {
            return Ok(first);
        };
        let attrs = self.concat_attrs(before, second.part())?;
        Ok(second.with_part(attrs))
    }

    // The attributes of two lists as one: both are copied to the end of the table, unless one is empty.
    fn concat_attrs(&mut self, first: AttrsOwned, second: AttrsOwned) -> Result<AttrsOwned, Refusal>
        requires first { Inside (shown_of self.old).attrs first }
        requires second { Inside (shown_of self.old).attrs second }
        ensures joins { Joins first second self.old self.new result }
        ensures marked { marked_of self.new ≡ marked_of self.old }
    {
        if first.count == 0 {
            return Ok(second);
        }
        if second.count == 0 {
            return Ok(first);
        }
        let from = self.attrs.len();
        let count = first.count as usize + second.count as usize;
        if count > self.attrs.room() {
            return Err(Refusal::TableFull);
        }
        self.attrs
            .extend_from_within(first.first as usize, first.count as usize);
        self.attrs
            .extend_from_within(second.first as usize, second.count as usize);
        Ok(AttrsOwned::new(from as u32, count as u32))
    }
}
