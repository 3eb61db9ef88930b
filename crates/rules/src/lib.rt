// The rules of lowering, imports, constructors and printing, as definitions; what follows from them is in the contracts.
#![tactic(auto)]

ghost use Rattle.std.specs.Prelude.{◌≡◌};
ghost use Rattle.rules.specs.Agreement.{Alike, TreesAgree};
ghost use Rattle.rules.specs.Examples.{ExamplesStand};
ghost use Rattle.rules.specs.Holding.{HoldingOnce, HoldingStands};
ghost use Rattle.rules.specs.Imports.{ImportsLocal};
ghost use Rattle.rules.specs.Modules.{ConstructorLaw, StructLaw, FieldsNarrow};
ghost use Rattle.rules.specs.Printed.{LevelsBack, TextsEnd};
ghost use Rattle.rules.specs.Consequences.{ConstructorsHeld, DistinctStands, EntriesStand, IdsStand, IndexNever, InventoryStands, LeavesStand, LimitsStand, NodesStand, NumbersStay, OneItem, PlacesRise, RootIsItems, RunIdsStand};

use syntax::source::SyntaxSource;

// The worked examples: sources that keep the law, with the answers that the rules give.
pub fn examples_stand()
    ensures { ExamplesStand }
{}

// Who sees a tuple struct's constructor.
pub fn constructors_stand()
    ensures exact { ConstructorLaw }
    ensures written { StructLaw }
    ensures held { ConstructorsHeld }
    ensures narrower { FieldsNarrow }
{}

// Ids are given in order and without a gap, of each size by itself.
pub fn ids_stand()
    ensures { IdsStand }
{}

// Places count the lowered use nodes of an item and rise over its imports, which depend on its part of the source alone.
pub fn imports_stand()
    ensures rising { PlacesRise }
    ensures leaves { LeavesStand }
    ensures nodes { NodesStand }
    ensures part { ImportsLocal }
{}

// What every run of lowering calls keeps, whatever its source.
pub fn runs_stand()
    ensures inventory { InventoryStands }
    ensures entries { EntriesStand }
    ensures ids { RunIdsStand }
    ensures limits { LimitsStand }
    ensures single { OneItem }
    ensures root { RootIsItems }
    ensures never { IndexNever }
{}

// Equal paths have one number, which stays theirs.
pub fn numbers_stand()
    ensures distinct { DistinctStands }
    ensures stay { NumbersStay }
{}

// An inventory is held by one set of answers.
pub fn holding_stands()
    ensures held { HoldingStands }
    ensures once { HoldingOnce }
{}

// Any two sources of equal meaning give equal answers, inventories, imports, constructors and texts.
pub fn sources_agree<S: SyntaxSource, T: SyntaxSource>(first: &S, second: &T)
    ensures { S.SyntaxSource.meaning first.now ≡ T.SyntaxSource.meaning second.now → Alike (S.SyntaxSource.meaning first.now) (T.SyntaxSource.meaning second.now) }
{}

// Trees that hold what the same calls made of equal sources are read alike.
pub fn trees_agree()
    ensures { TreesAgree }
{}

// Printing puts the level back, and ends a text with one newline.
pub fn printing_stands()
    ensures levels { LevelsBack }
    ensures ending { TextsEnd }
{}
