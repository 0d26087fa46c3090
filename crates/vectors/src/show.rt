// The printed line of a vector. Hexadecimal is upper case.
use model::record::Record;
use model::sizes;
use std::fmt;

// Bytes in hexadecimal.
#[derive(Clone, Copy)]
pub struct Hex<'a>(pub &'a [u8]);

impl fmt::Display for Hex<'_> {
    fn fmt<W: fmt::Write>(&self, f: &mut fmt::Formatter<W>) -> fmt::Result {
        for byte in self.0 {
            write!(f, "{byte:02X}")?;
        }
        Ok(())
    }
}

// An answer: both statuses, residual, cause and a zero, blocks moved.
#[derive(Clone, Copy)]
pub struct Answer<'a>(pub &'a [u8; sizes::ANSWER]);

impl fmt::Display for Answer<'_> {
    fn fmt<W: fmt::Write>(&self, f: &mut fmt::Formatter<W>) -> fmt::Result {
        let answer = self.0;
        let (statuses, residual) = (Hex(&answer[..2]), Hex(&answer[2..4]));
        let (cause, moved) = (Hex(&answer[4..6]), Hex(&answer[6..]));
        write!(f, "{statuses}-{residual}-{cause}-{moved}")
    }
}

// A record's counts: blocks read, blocks written with check, access movements.
#[derive(Clone, Copy)]
pub struct Counts<'a>(pub &'a Record);

impl fmt::Display for Counts<'_> {
    fn fmt<W: fmt::Write>(&self, f: &mut fmt::Formatter<W>) -> fmt::Result {
        let record = self.0;
        let (read, written) = (Hex(&record.blocks_read), Hex(&record.blocks_written));
        let moved = Hex(&record.movements);
        write!(f, "{read}-{written}-{moved}")
    }
}
