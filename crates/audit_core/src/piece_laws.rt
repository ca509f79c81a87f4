//! Laws.
ghost use Rattle.audit_core.specs.Along.{PiecesAreTheRun};

/// Where all pieces of an input are lawful, their entries are those of a lawful run of their lines, joined.
pub fn pieces_are_the_run()
    ensures { PiecesAreTheRun }
{}
