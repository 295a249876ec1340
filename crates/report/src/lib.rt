// A refusal and values in document 01's numbers, and how they are told to a caller in another language.
#![tactic(auto)]

ghost use Rattle.std.specs.Prelude.{◌≡◌, ◌≤◌, length, [], ◌∷◌};
ghost use Rattle.words.specs.Paper.{accepted, port_number, refused_with, told};
ghost use Rattle.bits.specs.Bits.{num};
ghost use Rattle.writer.specs.Write as W;
ghost use Rattle.report.specs.Told as D;

use bits::Ports;
use words::{Fault, Refusal, Witness};

// The most values that come with an answer.
const MOST_VALUES: usize = 4;

// The number of an answer's refusal, or 0, its place, and the values that come with the answer, with zeros past them.
// Kept: the C interface gives numbers, and 0 where there is no refusal.
#[derive(Clone, Copy)]
pub struct Report {
    pub number: u32,
    pub place: usize,
    pub count: usize,
    pub values: [u64; MOST_VALUES],
}

// No refusal, and no values.
pub fn accepted() -> Report
    ensures { result ≡ D.report_of (accepted []) }
{
    Report {
        number: 0,
        place: 0,
        count: 0,
        values: [0; MOST_VALUES],
    }
}

impl Report {
    // The same report with one value.
    pub fn with_value(self, value: u64) -> Report
        ensures { result ≡ D.report_of (refused_with self.number self.place (value ∷ [])) }
    {
        Report {
            number: self.number,
            place: self.place,
            count: 1,
            values: [value, 0, 0, 0],
        }
    }
}

// A refusal without values.
impl From<Refusal> for Report {
    ghost from_gives = { λ refusal report. report ≡ D.report_of (told refusal) };

    fn from(refusal: Refusal) -> Report {
        Report {
            number: u32::from(refusal.fault),
            place: refusal.place,
            count: 0,
            values: [0; MOST_VALUES],
        }
    }
}

// What the evaluator shows: the four ports.
impl From<Ports> for Report {
    ghost from_gives = { λ ports report. report ≡ D.report_of (accepted (ports.o0 ∷ num ports.ocout ∷ num ports.ovf ∷ num ports.o1 ∷ [])) };

    fn from(ports: Ports) -> Report {
        Report {
            number: 0,
            place: 0,
            count: MOST_VALUES,
            values: [
                ports.o0,
                u64::from(ports.ocout),
                u64::from(ports.ovf),
                u64::from(ports.o1),
            ],
        }
    }
}

// Refusal 10: the port, the operands and the carry.
impl From<Witness> for Report {
    ghost from_gives = { λ witness report. report ≡ D.report_of (refused_with 10 witness.function (port_number witness.port ∷ witness.left ∷ witness.right ∷ num witness.carry ∷ [])) };

    fn from(witness: Witness) -> Report {
        Report {
            number: u32::from(Fault::WrongRecipe),
            place: witness.function as usize,
            count: MOST_VALUES,
            values: [
                u64::from(u32::from(witness.port)),
                witness.left,
                witness.right,
                u64::from(witness.carry),
            ],
        }
    }
}

// Puts values into the caller's words, if they are enough.
#[tactic(auto, using(crate::proofs::Telling::too_few, crate::proofs::Telling::all_put))]
fn put_values(values: &[u64], out: &mut [u64])
    ensures { out.new ≡ W.lent_after values.now out.old }
{
    if out.len() < values.len() {
        return;
    }
    out[..values.len()].copy_from_slice(values);
}

// Tells a report: the number is returned.
pub fn tell(report: Report, place: &mut u64, out: &mut [u64]) -> u32
    requires { report.count ≤ length report.values }
    ensures { D.Told (D.paper report) result place.new out.old out.new }
{
    *place = report.place as u64;
    let values = report.values;
    let count = report.count;
    put_values(&values[..count], out);
    report.number
}
