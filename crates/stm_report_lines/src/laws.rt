//! The laws of lines. Each function does nothing: its contract is the law.
ghost use Rattle.stm_report_lines.specs.ReadBack.{LinesReadBack};
ghost use Rattle.stm_report_lines.specs.RefusalNames.{NamesAgree};

/// What is written for a line is read back as the same line, where its numbers are of 64 bits with a sign and a delete
/// deletes one key at most.
pub fn lines_read_back()
    ensures { LinesReadBack }
{}

/// A store's refusal has one name, in the lines of a report and wherever else it is printed, and so has a program's fault. A word of a report is
/// read as a refusal, or as a fault, exactly where it is its name.
pub fn names_agree()
    ensures { NamesAgree }
{}
