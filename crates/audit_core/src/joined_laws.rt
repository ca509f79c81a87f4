//! Laws.
ghost use Rattle.audit_core.specs.WholePieces.{NoAsJoined, YesAsJoined};

/// Along, `yes` is said exactly where an input stands in whole pieces and an audit says `yes` of them joined.
pub fn along_as_joined()
    ensures yes { YesAsJoined }

    // Of whole pieces of which it says `no`, an audit of them joined doesn't say `yes`.
    ensures no { NoAsJoined }
{}
