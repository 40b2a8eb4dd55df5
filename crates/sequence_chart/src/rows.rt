//! Rows: where the lines of a trace stand.
ghost use Rattle.std.specs.Prelude.{◌≡◌, ◌+◌, ◌<◌, ◌≤◌, ◌^◌, length};
ghost use Rattle.sequence_chart.specs.Rows.{after as after_said, first_cursor, next_event, next_label, next_message, y_of as y_of_row};
ghost use Rattle.sequence_chart.specs.Chart.{last_row as last_row_of};

use trace_reader::{Said, TraceLine};

/// How many lines a chart has at most.
pub const MAX_LINES: usize = 1000000;

/// How many units down the middle of a row is. A row is 14 units high.
pub fn y_of(row: u32) -> u64
    ensures { result ≡ y_of_row row }
{
    40 + row as u64 * 14
}

/// Where a line stands: its row, and how many messages were sent up to it.
#[derive(Clone, Copy)]
pub struct Cursor {
    pub row: u32,
    /// Whether no label stands in the row of the last line of the schedule.
    pub is_free: bool,
    pub sent: u32,
}

impl Cursor {
    /// Above the first line.
    pub fn first() -> Cursor
        ensures { result ≡ first_cursor }
    {
        Cursor {
            row: 0,
            is_free: true,
            sent: 0,
        }
    }

    fn next_event(self) -> Cursor
        requires { self.row + 1 < 2 ^ 32 }
        ensures { result ≡ next_event self }
    {
        Cursor {
            row: self.row + 1,
            is_free: true,
            sent: self.sent,
        }
    }

    fn next_label(self) -> Cursor
        requires { self.row + 1 < 2 ^ 32 }
        ensures { result ≡ next_label self }
    {
        if self.is_free {
            return Cursor {
                row: self.row,
                is_free: false,
                sent: self.sent,
            };
        }
        Cursor {
            row: self.row + 1,
            is_free: false,
            sent: self.sent,
        }
    }

    fn next_message(self) -> Cursor
        requires { self.sent + 1 < 2 ^ 32 }
        ensures { result ≡ next_message self }
    {
        Cursor {
            row: self.row,
            is_free: self.is_free,
            sent: self.sent + 1,
        }
    }

    /// Where the next line stands.
    pub fn after(self, said: &Said) -> Cursor
        requires row { self.row + 1 < 2 ^ 32 }
        requires sent { self.sent + 1 < 2 ^ 32 }
        ensures is { result ≡ after_said self said.now }
        ensures row { result.row ≤ self.row + 1 }
        ensures sent { result.sent ≤ self.sent + 1 }
    {
        match said {
            Said::Delivery(_, _) => self.next_event(),
            Said::Event(_) => self.next_event(),
            Said::Sent(_, _) => self.next_message(),
            _ => self.next_label(),
        }
    }
}

/// The row of the last line.
pub fn last_row(lines: &[TraceLine]) -> u32
    requires { length lines.now ≤ MAX_LINES }
    ensures is { result ≡ last_row_of first_cursor lines.now }
    ensures few { result ≤ length lines.now }
{
    let mut cursor = Cursor::first();
    for line in lines {
        cursor = cursor.after(&line.said);
    }
    cursor.row
}
