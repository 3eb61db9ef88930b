// What reading a path has to do with spelling one.
ghost use Rattle.paths.specs.Exactness.{PathsStand};

// Segments spell one path or none, and that is what is read: so it is said in the contract.
pub fn paths_stand()
    ensures { PathsStand }
{}
