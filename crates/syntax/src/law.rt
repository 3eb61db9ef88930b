// What the law of sources gives to whoever reads one.
ghost use Rattle.syntax.specs.Standing.{LawStands};

// The law stands: its consequences for every lawful source, in the contract.
pub fn law_stands()
    ensures { LawStands }
{}
