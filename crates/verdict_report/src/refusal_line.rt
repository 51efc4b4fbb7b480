//! The line that reports a refusal.

ghost use Rattle.std.specs.Prelude.{◌≡◌, ◌+◌, ◌++◌, IfErr, OnOk, OnErr, codes};
ghost use Rattle.dimacs.specs.Sink.{AppendsFront};
ghost use Rattle.dimacs.specs.declared.sink_fault.SinkFault.TheVariants.{Device};
ghost use Rattle.verdict_report.specs.Fault.{line_of, printed_parts};

use crate::fault::{Fault, FaultLine};
use crate::pieces::write_pieces;
use dimacs::{Failed, Sink, SinkFault};
use itoa::Buffer;

/// Writes the line of the refusal with these parts.
fn write_told<W: Sink>(told: &FaultLine, out: &mut W) -> Result<(), Failed>
    ensures whole { OnOk result (W.written out.new ≡ W.written out.old ++ (codes "refused: " ++ (printed_parts told.now.area.now told.now.number told.now.name.now told.now.place ++ codes "\n"))) }
    ensures well { OnOk result (W.failures out.new ≡ W.failures out.old) }
    ensures front { OnErr result (AppendsFront (W.written out.old) (W.written out.new) (codes "refused: " ++ (printed_parts told.now.area.now told.now.number told.now.name.now told.now.place ++ codes "\n"))) }
    ensures failed { OnErr result (W.failures out.new ≡ W.failures out.old + 1) }
    ensures same { W.path out.new ≡ W.path out.old }
{
    let begin = b"refused: ".as_slice();
    let area = told.area.as_bytes();
    let name = told.name.as_bytes();
    let mut number_digits = Buffer::new();
    let mut place_digits = Buffer::new();
    match told.number {
        None => write_pieces(&[begin, area, b"\n"], out),
        Some(number) => {
            let number = number_digits.format(number).as_bytes();
            match told.place {
                None => write_pieces(&[begin, area, b" ", number, b" ", name, b"\n"], out),
                Some(place) => {
                    let place = place_digits.format(place).as_bytes();
                    write_pieces(
                        &[begin, area, b" ", number, b" ", name, b" at ", place, b"\n"],
                        out,
                    )
                }
            }
        }
    }
}

/// Writes the line that reports the fault, as `refused: trace 13 TooManyOps at 4099`. It takes no memory, so that the error is never
/// `OutOfMemory`.
pub fn write_fault<W: Sink>(fault: &Fault, out: &mut W) -> Result<(), SinkFault>
    ensures whole { OnOk result (W.written out.new ≡ W.written out.old ++ line_of fault.now) }
    ensures well { OnOk result (W.failures out.new ≡ W.failures out.old) }
    ensures front { OnErr result (AppendsFront (W.written out.old) (W.written out.new) (line_of fault.now)) }
    ensures failed { OnErr result (W.failures out.new ≡ W.failures out.old + 1) }
    ensures device { IfErr result (λ fault. fault ≡ Device) }
    ensures same { W.path out.new ≡ W.path out.old }
{
    let told = fault.told();
    Ok(write_told(&told, out)?)
}
