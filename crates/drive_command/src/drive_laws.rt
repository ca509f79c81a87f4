//! Laws of driven reports.
ghost use Rattle.drive_command.specs.Driven.{DrivenReportsAreLawful, EachInputIsDriven, OneReportIsDriven};

use epoch_drive::{driven_runs_are_lawful, each_schedule_is_driven, one_is_driven};

/// Whatever the schedule, its report is a lawful one of so many slices and of its rooms. Each input has one, and no
/// other.
pub fn driven_reports_are_lawful()
    ensures lawful { DrivenReportsAreLawful }
    ensures each { EachInputIsDriven }
    ensures one { OneReportIsDriven }
{
    driven_runs_are_lawful();
    each_schedule_is_driven();
    one_is_driven();
}
