//! How a run ends.
ghost use Rattle.std.specs.Prelude.{◌≡◌, Some};
ghost use Rattle.trace_run.specs.Status.{code_of, fault_text_of};

use std::fmt;

/// How a run ended. It prints as its line on standard error, without the newline, so `Ok` as nothing.
#[derive(Clone, Copy, Debug, PartialEq, Eq)]
pub enum Status {
    /// The input was read to its end, and the whole report written.
    Ok,
    /// The words are no command of the program.
    Usage,
    /// The source failed; the report of the lines that a newline had ended by then was written.
    ReadFault,
    /// The sink failed; a prefix of a report was written.
    WriteFault,
    /// Memory ran out; the texts of some first whole epochs were written.
    NoMemory,
    /// A line is refused; the report ends with it, and its note is the last line entry.
    BadLine,
    /// A line has more than 132,000 octets; the report of the lines before was written.
    LineLong,
    /// The input has 2^40 octets or more; the report of the lines before was written.
    TooLong,
    /// The report is no lawful one of the trace; `no` was written, and the number of what refutes it.
    Refuted,
    /// The octets are no capture from some place on; the trace of the records before was written.
    BadCapture,
    /// The input begins with no saved state; nothing was written.
    BadState,
    /// A line of the report is no entry; nothing was written.
    BadReport,
}

impl Status {
    /// The exit status.
    pub fn code(&self) -> u8
        ensures { result ≡ code_of self.now }
    {
        match self {
            Status::Ok => 0,
            Status::Usage => 2,
            Status::ReadFault => 3,
            Status::WriteFault => 4,
            Status::NoMemory => 5,
            Status::BadLine => 6,
            Status::LineLong => 7,
            Status::TooLong => 8,
            Status::Refuted => 9,
            Status::BadCapture => 10,
            Status::BadState => 11,
            Status::BadReport => 12,
        }
    }
}

impl fmt::Display for Status {
    ghost output = { λ status. Some (fault_text_of status) };

    fn fmt<W: fmt::Write>(&self, f: &mut fmt::Formatter<W>) -> fmt::Result {
        f.pad(fault_text(*self))
    }
}

/// The line on standard error for a status; empty where all went well.
pub fn fault_text(status: Status) -> &'static str
    ensures { result.now ≡ fault_text_of status }
{
    match status {
        Status::Ok => "",
        Status::Usage => "pepc: usage",
        Status::ReadFault => "pepc: read fault",
        Status::WriteFault => "pepc: write fault",
        Status::NoMemory => "pepc: no memory",
        Status::BadLine => "pepc: bad line",
        Status::LineLong => "pepc: line too long",
        Status::TooLong => "pepc: input too long",
        Status::Refuted => "pepc: report refuted",
        Status::BadCapture => "pepc: bad capture",
        Status::BadState => "pepc: bad state",
        Status::BadReport => "pepc: bad report",
    }
}
