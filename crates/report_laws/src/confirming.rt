//! An audit of reports of the program's own.
ghost use Rattle.report_laws.specs.Confirming.{OwnReportIsConfirmed, OwnReportIsNeverRefuted};
ghost use Rattle.report_laws.specs.Confirming.{OwnTextIsConfirmed, OwnTextIsNeverRefuted};
ghost use Rattle.report_laws.specs.Running.{EachIsLawful, OwnRunIsConfirmed, OwnRunIsNeverRefuted};

use drive_command::driven_reports_are_lawful;

/// An audit finds nothing to refute in a lawful report of a trace, without its places: held against the same slices,
/// room and lanes; and in one that one thread made, held against one thread, or against 64 slices with any room and
/// lanes.
pub fn own_report_is_confirmed()
    ensures yes { OwnReportIsConfirmed }
    ensures only { OwnReportIsNeverRefuted }

    // So it is of octets: those of a trace whose lines are all good and end with a newline, and behind `REPORT` the
    // text of the report, where all of it is read.
    ensures text { OwnTextIsConfirmed }
    ensures text_only { OwnTextIsNeverRefuted }
{}

/// Each report that `solo`, `drive` or `replay` may write is a lawful one of its setup.
pub fn each_report_is_lawful()
    ensures { EachIsLawful }
{
    driven_reports_are_lawful();
}

/// What such a command wrote without places, with status 0 and of a trace that ends with a newline, is confirmed by
/// `audit`, which is given the trace, the line `REPORT` and that text, and reads them whole: where nothing fails to be
/// read or written its status is 0, unless memory runs out, and it is never 9.
pub fn own_run_is_confirmed()
    ensures done { OwnRunIsConfirmed }
    ensures never { OwnRunIsNeverRefuted }
{
    each_report_is_lawful();
}
