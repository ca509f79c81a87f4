//! What the definitions mean, each the contract of a function that does nothing.
ghost use Rattle.std.specs.Prelude.{◌≡◌, ℕ, All, List, take};
ghost use Rattle.pc_outside.specs.Texts.{Text};
ghost use Rattle.balance_plan.specs.Loads.{IsBelow, SlotsRise};
ghost use Rattle.balance_plan.specs.Plan.{plan_of};
ghost use Rattle.balance_plan.specs.declared.load.Load.{Load};
ghost use Rattle.balance_plan.specs.Balance.{balanced};
ghost use Rattle.balance_plan.specs.Levelled.{LevelAll};
ghost use Rattle.balance_plan.specs.Said.{IsBalanced};
ghost use Rattle.balance_plan.specs.Written.{without_planned};
ghost use Rattle.report_lines.specs.declared.entry.Entry.{Entry};
ghost use Rattle.trace_lines.specs.Line.{Line};

/// What is written, without the planned moves, is the trace.
pub fn planned_moves_apart()
    ensures { (slices most : ℕ) (entries : List Entry) (lines : List Line)
        → without_planned (balanced slices most entries lines) ≡ lines }
{}

/// The lines of an input have one text with planned moves.
pub fn one_balanced_text()
    ensures { (slices most : ℕ) (texts : List Text) (one other : List ℕ) → IsBalanced slices most texts one
        → IsBalanced slices most texts other → one ≡ other }
{}

/// No plan raises the greatest load of a slice, and none lowers the least: neither as a whole, nor its moves up to any
/// one of them.
pub fn plans_level()
    ensures { (slices most done : ℕ) (loads : List Load) → SlotsRise loads → All (IsBelow slices) loads
        → LevelAll slices (take done (plan_of slices most loads)) loads }
{}
