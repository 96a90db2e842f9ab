// The characters of a plate copied into a buffer, up to ETX.
ghost use Rattle.std.specs.Prelude.{◌≡◌, ◌≤◌, ◌<◌, length};
ghost use Rattle.causes.specs.Limits.{most_plate_bytes};
ghost use Rattle.output.specs.Pour.{poured};
ghost use Rattle.plate.specs.Reading.{got};
ghost use Rattle.fields.specs.Places.{place_at, until_etx, values_of, end_with, Known};

use fields::Copied;

// The characters of so many bits from a bit on, which are known to be those of a text: those of 56 bits are read at once; one by one where fewer
// than eight bytes are left. Inlined, so that the loop is made for each width.
#[inline(always)]
pub fn copy_each(plate: &[u8], at: usize, width: usize, out: &mut [u8], from: usize) -> Copied
    requires { (0 < width) × (width ≤ 8) × (length plate.now ≤ most_plate_bytes) × Known (until_etx width (place_at plate.now at)) }
    ensures out_after { (result.end, out.new) ≡ poured from (values_of (until_etx width (place_at plate.now at))) out.old }
    ensures next_value { got 0 (place_at plate.now result.next) ≡ end_with 0 (until_etx width (place_at plate.now at)) }
{
    let mut end = from;
    let mut bit = at;
    loop {
        if let Some(word) = bits_in::read_eight(plate, bit) {
            let mut left = word;
            let many = 56 / width;
            for _ in 0..many {
                let code = left >> (56 - width);
                bit += width;
                if code == 3 {
                    return Copied { end, next: bit };
                }
                end = text_out::put_byte(out, end, code as u8);
                left = left % bits::two_to(56 - width) * bits::two_to(width);
            }
        } else {
            let Some(code) = bits_in::read_number(plate, bit, width) else {
                // Never: the text is known to be good.
                return Copied { end, next: bit };
            };
            bit += width;
            if code == 3 {
                return Copied { end, next: bit };
            }
            end = text_out::put_byte(out, end, code as u8);
        }
    }
}

// The same of 7 bits.
pub fn copy_characters(plate: &[u8], at: usize, out: &mut [u8], from: usize) -> Copied
    requires { (length plate.now ≤ most_plate_bytes) × Known (until_etx 7 (place_at plate.now at)) }
    ensures out_after { (result.end, out.new) ≡ poured from (values_of (until_etx 7 (place_at plate.now at))) out.old }
    ensures next_value { got 0 (place_at plate.now result.next) ≡ end_with 0 (until_etx 7 (place_at plate.now at)) }
{
    copy_each(plate, at, 7, out, from)
}
