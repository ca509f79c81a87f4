//! What the definitions mean, each the contract of a function that does nothing.
ghost use Rattle.std.specs.Prelude.{◌≡◌, ℕ, ◌≤◌, All, List, Some};
ghost use Rattle.balance_plan.specs.Laws.{IsOf, LevelsBy};
ghost use Rattle.balance_plan.specs.Loads.{IsBelow, SlotsRise};
ghost use Rattle.balance_plan.specs.Plan.{plan_of};
ghost use Rattle.balance_plan.specs.Rows.{OneHeavySlot, ThreeOnOneSlice};
ghost use Rattle.balance_plan.specs.Steps.{step_of};
ghost use Rattle.balance_plan.specs.declared.load.Load.{Load};
ghost use Rattle.balance_plan.specs.declared.load.Planned.{Planned};

/// No step raises the greatest load of a slice, and none lowers the least.
pub fn steps_level()
    ensures { (slices : ℕ) (loads : List Load) (step : Planned) → SlotsRise loads → All (IsBelow slices) loads
        → step_of slices loads ≡ Some step → LevelsBy slices step loads }
{}

/// What is planned moves slots of the loads, to slices below their number.
pub fn planned_moves_are_of_loads()
    ensures { (slices most : ℕ) (loads : List Load) → 1 ≤ slices
        → All (IsOf slices loads) (plan_of slices most loads) }
{}

/// Two plans, worked by hand.
pub fn worked_rows()
    ensures three_on_one_slice { ThreeOnOneSlice }
    ensures one_heavy_slot { OneHeavySlot }
{}
