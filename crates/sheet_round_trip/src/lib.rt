// The sheet's writer and reader, one after the other: a set comes back as it was, and a sheet byte for byte. Proved
// from their contracts alone.
#![tactic(auto)]

ghost use Rattle.std.specs.Prelude.{◌≡◌, length};
ghost use Rattle.sheet.specs.Sheet.{written_buffer};
ghost use Rattle.sheet_round_trip.specs.Trips.{read_back, copy_answer, copied};

use set_params::Params;
use sheet::{Reading, Written};

// Writes a set, and reads what the writer says that it wrote.
pub fn write_then_read(p: Params, buffer: &mut [u8]) -> Reading
    ensures { (result ≡ read_back p (length buffer.old))
        × (buffer.new ≡ written_buffer p buffer.old) }
{
    let written = sheet_writer::write(p, buffer);
    let len = written.len;
    sheet_reader::read(&buffer[..len])
}

// Reads a sheet, and writes the set that it gives.
pub fn read_then_write(bytes: &[u8], buffer: &mut [u8]) -> Written
    ensures { (result ≡ copy_answer bytes.now (length buffer.old))
        × (buffer.new ≡ copied bytes.now buffer.old) }
{
    let got = sheet_reader::read(bytes);
    let refusal = got.refusal;
    if set_refusal::refusal_number(refusal) != 0 {
        return Written { refusal, len: 0 };
    }
    let set = got.set;
    sheet_writer::write(set, buffer)
}
