// The two forms of a source mean the same.
ghost use Rattle.forms.specs.Agreement.{OneMeaning};

// Every lawful source has both forms, and they open as one: the statement is the contract.
pub fn forms_agree()
    ensures { OneMeaning }
{}
