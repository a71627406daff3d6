// An answer and a report as they are printed.
ghost use Rattle.std.specs.Prelude.{Some};
ghost use Rattle.files.specs.Report.{report_of, text_of};

use crate::answer::{Answer, Report};
use crate::claim_lines::ClaimLine;
use std::fmt;
use verdicts::ThreeWay;

impl fmt::Display for Answer {
    ghost output = { λ a. Some (report_of a) };

    fn fmt<W: fmt::Write>(&self, f: &mut fmt::Formatter<W>) -> fmt::Result {
        match self {
            Answer::Verdict(ThreeWay::Kept) => f.write_str("verdict\tkept\n"),
            Answer::Verdict(ThreeWay::Unclear) => f.write_str("verdict\tunclear\n"),
            Answer::Verdict(ThreeWay::Broken) => f.write_str("verdict\tbroken\n"),
            Answer::Refused(fault, line) => {
                let number = fault.number();
                let layer = fault.layer().number();
                let place = fault.place();
                write!(f, "fault\t{number}\t{layer}\t{place}\t{line}\n")
            }
        }
    }
}

// The answer's line, and a line for each claim.
impl fmt::Display for Report {
    ghost output = { λ r. Some (text_of r.answer r.claims.items) };

    fn fmt<W: fmt::Write>(&self, f: &mut fmt::Formatter<W>) -> fmt::Result {
        let answer = self.answer;
        write!(f, "{answer}")?;
        for claim in &self.claims {
            let line = ClaimLine(*claim);
            write!(f, "{line}")?;
        }
        Ok(())
    }
}
