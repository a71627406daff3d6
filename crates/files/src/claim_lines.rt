// A claim as it is printed.
ghost use Rattle.std.specs.Prelude.{◌≡◌, Some};
ghost use Rattle.files.specs.Report.{claim_line, sign_number};

use claims::{Claim, Sign};
use std::fmt;

// The number of a sign in print. No `From`: neither of its types would be ours.
fn sign_number(sign: Sign) -> u8
    ensures { result ≡ sign_number sign }
{
    match sign {
        Sign::Holds => 1,
        Sign::Fails => 0,
    }
}

// The line of a report that a claim takes.
#[derive(Clone, Copy)]
pub(crate) struct ClaimLine(pub(crate) Claim);

impl fmt::Display for ClaimLine {
    ghost output = { λ line. Some (claim_line line.0) };

    fn fmt<W: fmt::Write>(&self, f: &mut fmt::Formatter<W>) -> fmt::Result {
        let Claim {
            place,
            node,
            sign,
            first,
            second,
        } = self.0;
        let sign = sign_number(sign);
        write!(f, "claim\t{place}\t{node}\t{sign}\t{first}\t{second}\n")
    }
}
