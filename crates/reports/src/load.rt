// The answer of a load.
ghost use Rattle.std.specs.Prelude.{◌≡◌, [], ◌∷◌};
ghost use Rattle.refusals.specs.Places.{place_of};
ghost use Rattle.answers.specs.Answers.{answer_of};
ghost use Rattle.reports.specs.Report.{place_kind, place_value, load_report};

use answers::Counts;
use refusals::{LoadError, Place};

// The kind of a refusal's place (0 no place, 1 a line, 2 an offset, 3 a byte), and the place.
// Kept: the C interface, whose report gives the kind as a number.
fn place_cells(place: Option<Place>) -> [u64; 2]
    ensures { result ≡ place_kind (place_of place) ∷ place_value (place_of place) ∷ [] }
{
    match place {
        None => [0, 0],
        Some(Place::Line(n)) => [1, n as u64],
        Some(Place::Offset(n)) => [2, n as u64],
        Some(Place::Byte(b)) => [3, u64::from(b)],
    }
}

/// The number of a load's answer, 0 if none, with its values in the report.
pub fn report_to(load: Result<Counts, LoadError>, report: &mut [u64; 6]) -> u32
    ensures number { result ≡ (answer_of load).number }
    ensures values { report.new ≡ load_report (answer_of load) }
{
    match load {
        Ok(counts) => {
            let tokens = u64::from(counts.tokens);
            let nodes = u64::from(counts.nodes);
            *report = [
                0,
                0,
                tokens,
                nodes,
                u64::from(counts.blob),
                u64::from(counts.table),
            ];
            0
        }
        Err(error) => {
            let [kind, value] = place_cells(error.place);
            *report = [kind, value, 0, 0, 0, 0];
            u32::from(error.refusal.number())
        }
    }
}
