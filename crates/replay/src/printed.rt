// How answers are printed.
use grammar::Refusal;
use promises::{EditedSheet, SheetListing, SheetReading};
use std::fmt;

// An answer, or a part of one, as it is printed.
#[derive(Drop)]
pub struct Shown<T>(pub T);

// What a call gives, or the number of the question that fails.
impl<T: Copy> fmt::Display for Shown<Result<T, Refusal>>
where
    Shown<T>: fmt::Display,
{
    fn fmt<W: fmt::Write>(&self, f: &mut fmt::Formatter<W>) -> fmt::Result {
        match self.0 {
            Ok(given) => write!(f, "{}", Shown(given)),
            Err(refusal) => write!(f, "refused {refusal}"),
        }
    }
}

// The text's length, which an opening gives.
impl fmt::Display for Shown<usize> {
    fn fmt<W: fmt::Write>(&self, f: &mut fmt::Formatter<W>) -> fmt::Result {
        write!(f, "length {}", self.0)
    }
}

impl fmt::Display for Shown<EditedSheet> {
    fn fmt<W: fmt::Write>(&self, f: &mut fmt::Formatter<W>) -> fmt::Result {
        let EditedSheet { length, standing } = self.0;
        write!(f, "length {length}, standing {standing}")
    }
}

impl fmt::Display for Shown<SheetReading> {
    fn fmt<W: fmt::Write>(&self, f: &mut fmt::Formatter<W>) -> fmt::Result {
        let SheetReading {
            outcome,
            length,
            examined,
            nesting,
            evaluations,
        } = self.0;
        write!(
            f,
            "{outcome}, length {length}, examined {examined}, nesting {nesting}, evaluations {evaluations}"
        )
    }
}

// The word that a look gives.
impl fmt::Display for Shown<u64> {
    fn fmt<W: fmt::Write>(&self, f: &mut fmt::Formatter<W>) -> fmt::Result {
        write!(f, "word {:016x}", self.0)
    }
}

// What a listing gives, with the row slots that it wrote into.
#[derive(Clone, Copy)]
pub struct Listed<'a> {
    pub listing: SheetListing,
    pub slots: &'a [u64],
}

impl fmt::Display for Shown<Listed<'_>> {
    fn fmt<W: fmt::Write>(&self, f: &mut fmt::Formatter<W>) -> fmt::Result {
        let Listed { listing, slots } = self.0;
        write!(f, "{}, rows {}", Shown(listing.reading), listing.rows)?;
        for word in slots.iter().take(listing.rows) {
            write!(f, " {word:016x}")?;
        }
        Ok(())
    }
}
