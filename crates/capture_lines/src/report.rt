//! The lines of a run, by where they are printed.

ghost use Rattle.std.specs.Prelude.{◌≡◌, ◌++◌, [], IfOk, OnOk, false, map, true};
ghost use Rattle.std.specs.List.{zip};
ghost use Rattle.std.specs.String.{string_bytes};
ghost use Rattle.capture_lines.specs.Reports.{AddsFile, HaveFileTexts, lines_of};

use capture_report::{file_findings, file_line};
use findings::{Finding, choose, finding_lines};
use network_files::ParsedFile;
use std::alloc::{AllocError, Allocator, Global};

/// The lines of a run. Those of files and of notices go to standard output, and change no status;
/// those of warnings go to standard error.
#[derive(Drop)]
pub struct Report<A: Allocator = Global> {
    /// A line for each file: what it contains.
    pub files: String<A>,
    /// The lines of notices.
    pub notices: String<A>,
    /// The lines of warnings.
    pub warnings: String<A>,
}

impl<A: Allocator + Copy> Report<A> {
    /// A report without lines.
    fn new(alloc: A) -> Report<A>
        ensures files { string_bytes result.files ≡ [] }
        ensures notices { string_bytes result.notices ≡ [] }
        ensures warnings { string_bytes result.warnings ≡ [] }
    {
        Report {
            files: String::new(alloc),
            notices: String::new(alloc),
            warnings: String::new(alloc),
        }
    }

    /// Adds the lines of findings in what has this name.
    pub(crate) fn put(
        &mut self,
        alloc: A,
        name: &str,
        findings: &[Finding],
    ) -> Result<(), AllocError>
        ensures files { OnOk result (string_bytes self.new.files ≡ string_bytes self.old.files) }
        ensures notices { OnOk result (string_bytes self.new.notices
            ≡ string_bytes self.old.notices ++ lines_of true name.now findings.now) }
        ensures warnings { OnOk result (string_bytes self.new.warnings
            ≡ string_bytes self.old.warnings ++ lines_of false name.now findings.now) }
    {
        let notices = choose(alloc, true, findings)?;
        let lines = finding_lines(alloc, name, &notices)?;
        self.notices.push_str(lines.as_str())?;
        let warnings = choose(alloc, false, findings)?;
        let lines = finding_lines(alloc, name, &warnings)?;
        self.warnings.push_str(lines.as_str())?;
        Ok(())
    }

    /// Adds the line of a file of this name, and the lines of the findings in it.
    fn put_file(&mut self, alloc: A, name: &str, file: &ParsedFile<A>) -> Result<(), AllocError>
        ensures { OnOk result (AddsFile name.now file.now
            (string_bytes self.old.files) (string_bytes self.new.files)
            (string_bytes self.old.notices) (string_bytes self.new.notices)
            (string_bytes self.old.warnings) (string_bytes self.new.warnings)) }
    {
        let line = file_line(alloc, name, file)?;
        self.files.push_str(line.as_str())?;
        let findings = file_findings(alloc, file)?;
        self.put(alloc, name, &findings)
    }

    /// The lines of files, and of the findings in each.
    pub(crate) fn of_files(
        alloc: A,
        names: &[&str],
        files: &[ParsedFile<A>],
    ) -> Result<Report<A>, AllocError>
        ensures { IfOk result (λ report.
            HaveFileTexts (zip (map (λ name. name.now) names.now) files.now)
            (string_bytes report.files) (string_bytes report.notices)
            (string_bytes report.warnings)) }
    {
        let mut report = Report::new(alloc);
        for (name, file) in names.iter().zip(files) {
            report.put_file(alloc, *name, file)?;
        }
        Ok(report)
    }
}
