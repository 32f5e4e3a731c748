// An answer on numbers, and the report that takes its values.
ghost use Rattle.std.specs.Prelude.{◌≡◌};
ghost use Rattle.spec.specs.Answer as spec;
ghost use Rattle.reports.specs.Report.{answer_is, report_of, looked_report};

/// A number of the documents, 0 if none, and its values.
// Kept: the C interface answers a number, and its values in the cells of a report.
#[derive(Clone, Copy, Debug, PartialEq, Eq)]
pub struct Answer {
    pub number: u32,
    pub count: u64,
    pub place: u64,
    pub value: u64,
}

impl Answer {
    /// A number that carries nothing.
    pub fn bare(number: u32) -> Answer
        ensures { answer_is result ≡ spec.bare number }
    {
        Answer {
            number,
            count: 0,
            place: 0,
            value: 0,
        }
    }

    /// Number 0, with its count.
    pub fn whole(count: usize) -> Answer
        ensures { answer_is result ≡ spec.whole count }
    {
        Answer {
            number: 0,
            count: count as u64,
            place: 0,
            value: 0,
        }
    }

    /// The number, with the values in the report: count, place, value.
    pub fn report_to(self, report: &mut [u64; 3]) -> u32
        ensures { (result ≡ self.number) × (report.new ≡ report_of (answer_is self)) }
    {
        *report = [self.count, self.place, self.value];
        self.number
    }

    /// The same, with the bytes looked at as a fourth value.
    pub fn report_with(self, looked: u64, report: &mut [u64; 4]) -> u32
        ensures { (result ≡ self.number) × (report.new ≡ looked_report (answer_is self) looked) }
    {
        *report = [self.count, self.place, self.value, looked];
        self.number
    }
}
