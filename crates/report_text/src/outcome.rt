ghost use Rattle.std.specs.Prelude.{◌≡◌, ◌++◌, codes};
ghost use Rattle.std.specs.List.{list_all};
ghost use Rattle.report_text.specs.Lines.{row_line};
ghost use Rattle.report_text.specs.Outcomes.{ends_well, is_no_damage, status_of_answer};

use crate::status::Status;
use cache_types::{Answer, Row};

/// Whether a line ends in one of the findings that tell of no damage.
fn ends_well(line: &[u8]) -> bool
    ensures { result ≡ ends_well line.now }
{
    line.ends_with(b" ok") || line.ends_with(b" absent") || line.ends_with(b" OtherFormat")
}

/// Whether a finding tells of no damage.
fn is_no_damage(finding: &str) -> bool
    ensures { result ≡ is_no_damage finding.now }
{
    finding == "ok" || finding == "absent" || finding == "OtherFormat"
}

/// Whether a line that ends in a space and these bytes tells of no damage.
fn closes_well(last: &str) -> bool
    ensures { result ≡ ends_well (codes " " ++ last.now) }
{
    is_no_damage(last) || ends_well(last.as_bytes())
}

/// Whether a row's line tells of no damage.
fn is_well(row: &Row) -> bool
    ensures { result ≡ ends_well (row_line row.now) }
{
    match row {
        Row::Head(head) => ends_well(head.as_str().as_bytes()),
        Row::Entry { finding, .. } => closes_well(finding.as_str()),
    }
}

/// Whether all rows' lines tell of no damage.
fn are_well(rows: &[Row]) -> bool
    ensures { result ≡ list_all (λ row. ends_well (row_line row)) rows.now }
{
    rows.iter().all(is_well)
}

/// The status of a call that ends with this answer. Takes no memory.
pub fn status_of(answer: &Answer) -> Status
    ensures { result ≡ status_of_answer answer.now }
{
    match answer {
        Answer::Hit(_) | Answer::Stored | Answer::Kept | Answer::Yes | Answer::No => Status::Ok,
        Answer::Marked | Answer::Keys(_) | Answer::Trimmed(_) => Status::Ok,
        Answer::Rows(rows) if are_well(rows.as_slice()) => Status::Ok,
        Answer::Rows(_) => Status::Damaged,
        Answer::Miss => Status::Miss,
        Answer::TooLarge(n) => Status::TooLarge(*n),
        Answer::Foreign => Status::Foreign,
        Answer::Busy => Status::Busy,
        Answer::FilesFault => Status::FilesFault,
        Answer::NoMemory => Status::NoMemory,
    }
}
