//! Laws.
ghost use Rattle.std.specs.Prelude.{◌≡◌, ℕ, List, Option};
ghost use Rattle.lawful_run.specs.Setup.{Setup};
ghost use Rattle.audit_core.specs.Findings.{Finds};
ghost use Rattle.pc_outside.specs.Texts.{Text};

/// The lines of an input have one finding, whatever gateway it is held against.
pub fn one_finding()
    ensures { (setup : Setup) (texts : List Text) (one other : Option ℕ) → Finds setup texts one
        → Finds setup texts other
        → one ≡ other }
{}
