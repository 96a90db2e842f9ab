// The lines of a result.
ghost use Rattle.std.specs.Prelude.{◌≡◌, ◌++◌};
ghost use Rattle.decimals.specs.Number.{decimalℕ};
ghost use Rattle.output.specs.Pour.{poured};
ghost use Rattle.printed.specs.Lines.{plate_line, refused_line, report_line};

use crate::pairs::put_pairs;
use causes::{Refusal, Report};

// A number behind its label.
pub fn put_labelled(out: &mut [u8], at: usize, label: &[u8], v: usize) -> usize
    ensures { (result, out.new) ≡ poured at (label.now ++ decimalℕ v) out.old }
{
    let end = text_out::put(out, at, label);
    text_out::put_natural(out, end, v)
}

// refused,NUMBER,PLACE
pub fn put_refused(out: &mut [u8], at: usize, r: Refusal) -> usize
    ensures { (result, out.new) ≡ poured at (refused_line r.cause r.place) out.old }
{
    let number = u32::from(r.cause);
    let end = put_labelled(out, at, b"refused,", number as usize);
    let end = put_labelled(out, end, b",", r.place);
    text_out::put_byte(out, end, b'\n')
}

// plate, and the bytes.
pub fn put_plate(out: &mut [u8], at: usize, plate: &[u8]) -> usize
    ensures { (result, out.new) ≡ poured at (plate_line plate.now) out.old }
{
    let end = text_out::put(out, at, b"plate,");
    let end = put_pairs(out, end, plate);
    text_out::put_byte(out, end, b'\n')
}

// outcome,N,taken,N,steps,N,wrong,N
pub fn put_report(out: &mut [u8], at: usize, r: Report) -> usize
    ensures { (result, out.new) ≡ poured at (report_line r.outcome r.taken r.steps) out.old }
{
    let number = u32::from(r.outcome);
    let wrong = r.outcome.wrong();
    let end = put_labelled(out, at, b"outcome,", number as usize);
    let end = put_labelled(out, end, b",taken,", r.taken);
    let end = put_labelled(out, end, b",steps,", r.steps);
    let end = put_labelled(out, end, b",wrong,", wrong as usize);
    text_out::put_byte(out, end, b'\n')
}
