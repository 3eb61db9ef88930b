// A syntax source over the packed form.
ghost use Rattle.std.specs.Prelude.{◌≡◌, ◌≤◌, true, length};
ghost use Rattle.syntax.specs.Law.{lawful};
ghost use Rattle.forms.specs.Tables.{SpansWithin, table_meaning};

use crate::tables::Tables;

pub mod open;
mod reader;

// Its texts are lent from the caller's bytes.
#[derive(Drop)]
pub struct PackedSource<'a> {
    bytes: &'a [u8],
    tables: Tables,
    ghost few: { (tables.counts.nodes ≤ 4096) × (tables.counts.texts ≤ 1024) },
    ghost within: { SpansWithin tables.texts tables.counts.texts (length bytes.now) },
    ghost ruled: { lawful (table_meaning tables bytes.now) ≡ true },
}
