// What the calls are lent, and the calls. What is lent is then as the call left it, also where the answer cannot be printed.
// Each call cuts its slices itself: a function that lent them all would have to say how what is written comes back. A call that writes
// takes all by `&mut`, also what it only reads: the check covers no `&` to what one field refers to beside a `&mut` to what another does.
// Its clause `kept` names what may change, and the rest of what is lent stays.
ghost use Rattle.std.specs.Prelude.{◌≡◌, ◌≤◌, ◌<◌, length, take, IfOk, MatchResult};
ghost use Rattle.answered.specs.After.{rows_in};
ghost use Rattle.promises.specs.Promises.{LookUpPromise};
ghost use Rattle.replay.specs.Calls.{Lent, Opens, Edits, ReadsSheet, ListsSheet, ListsInto};

use crate::errors::LineError;
use promises::{EditAnswer, ListAnswer, LookUpAnswer, OpenAnswer, ReadAnswer};
use std::marker::Model;

// The bytes, words and row slots that may be lent, how many of each are, and the text's length. Buffer and table keep what calls leave in
// them, also where less of them is lent. There is no heap, so a length stands beside its room: a slice of that length cannot be kept beside
// the room that it is cut from.
#[derive(Drop)]
pub struct Desk<'a> {
    image: &'a mut [u8],
    buffer: &'a mut [u8],
    table: &'a mut [u64],
    slots: &'a mut [u64],
    image_length: usize,
    cap: usize,
    words: usize,
    n: usize,
}

impl<'a> Model for Desk<'a> {
    ghost Value = { Lent };

    ghost view = { λ d. record {
      image = take d.image_length d.image.now;
      buffer = take d.cap d.buffer.now;
      table = take d.words d.table.now;
      slots = d.slots.now;
      n = d.n;
    } };

    ghost invariant = { λ d. (d.image_length ≤ length d.image.now) × (d.cap ≤ length d.buffer.now) × (d.words ≤ length d.table.now) };
}

impl<'a> Desk<'a> {
    // With no image, and nothing lent yet.
    pub fn new(
        image: &'a mut [u8],
        buffer: &'a mut [u8],
        table: &'a mut [u64],
        slots: &'a mut [u64],
    ) -> Desk<'a>
        ensures { (length result.image ≡ 0) × (length result.buffer ≡ 0) × (length result.table ≡ 0) × (result.n ≡ 0) }
    {
        Desk {
            image,
            buffer,
            table,
            slots,
            image_length: 0,
            cap: 0,
            words: 0,
            n: 0,
        }
    }

    // The image that later calls are lent.
    pub fn keep_image(&mut self, image: &[u8]) -> Result<(), LineError>
        ensures image_is { IfOk result (λ _. self.new.image ≡ image.now) }
        ensures kept { self.new ≡ record self.old { image = self.new.image } }
    {
        if self.image.len() < image.len() {
            return Err(LineError::TooLong);
        }
        buffers::copy(self.image, image);
        self.image_length = image.len();
        Ok(())
    }

    // How much later calls are lent.
    pub fn lend(&mut self, cap: usize, words: usize) -> Result<(), LineError>
        ensures lengths_are { IfOk result (λ _. (length self.new.buffer ≡ cap) × (length self.new.table ≡ words)) }
        ensures kept { self.new ≡ record self.old { buffer = self.new.buffer; table = self.new.table } }
    {
        if self.buffer.len() < cap || self.table.len() < words {
            return Err(LineError::TooMuchLent);
        }
        self.cap = cap;
        self.words = words;
        Ok(())
    }

    // An opening over what is lent. The text then has the length that is answered.
    pub fn open(&mut self, text: &[u8]) -> OpenAnswer
        ensures opens { Opens self.old.image text.now self.old.buffer self.old.table self.old.n self.new.n self.new.buffer self.new.table }
        ensures kept { self.new ≡ record self.old { buffer = self.new.buffer; table = self.new.table; n = self.new.n } }
    {
        let image = &mut self.image[..self.image_length];
        let buffer = &mut self.buffer[..self.cap];
        let table = &mut self.table[..self.words];
        let answer = sheet::open::open(image, text, buffer, table);
        self.n = answered::opened(answer, self.n);
        answer
    }

    // An edit. The text then has the length that is answered.
    pub fn edit(&mut self, s: usize, e: usize, replacement: &[u8]) -> EditAnswer
        ensures edits { Edits self.old.image self.old.buffer self.old.n self.old.table s e replacement.now
            self.new.n self.new.buffer self.new.table }
        ensures kept { self.new ≡ record self.old { buffer = self.new.buffer; table = self.new.table; n = self.new.n } }
    {
        let image = &mut self.image[..self.image_length];
        let buffer = &mut self.buffer[..self.cap];
        let table = &mut self.table[..self.words];
        let answer = sheet::edit::edit(image, buffer, self.n, table, s, e, replacement);
        self.n = answered::edited(answer, self.n);
        answer
    }

    // A reading.
    pub fn read(&mut self) -> ReadAnswer
        ensures reads_sheet { ReadsSheet self.old.image self.old.buffer self.old.n self.old.table self.new.table }
        ensures kept { self.new ≡ record self.old { table = self.new.table } }
    {
        let image = &mut self.image[..self.image_length];
        let buffer = &mut self.buffer[..self.cap];
        let table = &mut self.table[..self.words];
        sheet::read::read_sheet(image, buffer, self.n, table)
    }

    // A look-up.
    pub fn look_up(&self, rule: usize, position: usize) -> LookUpAnswer
        ensures { LookUpPromise self.now.image self.now.buffer self.now.n self.now.table rule position result }
    {
        let image = &self.image[..self.image_length];
        let buffer = &self.buffer[..self.cap];
        let table = &self.table[..self.words];
        sheet::look_up::look_up(image, buffer, self.n, table, rule, position)
    }

    // Lends the first `count` row slots.
    fn list_slots(&mut self, count: usize) -> ListAnswer
        requires { count ≤ length self.old.slots }
        ensures lists_sheet { ListsSheet self.old.image self.old.buffer self.old.n self.old.table (take count self.old.slots)
            (rows_in result) self.new.table (take count self.new.slots) }
        ensures upper_bound { rows_in result ≤ count }
        ensures kept { self.new ≡ record self.old { table = self.new.table; slots = self.new.slots } }
    {
        let image = &mut self.image[..self.image_length];
        let buffer = &mut self.buffer[..self.cap];
        let table = &mut self.table[..self.words];
        let slots = &mut self.slots[..count];
        sheet::list::list_sheet(image, buffer, self.n, table, slots)
    }

    // Lists the rows into so many row slots, where there are so many.
    pub fn list(&mut self, count: usize) -> Result<ListAnswer, LineError>
        ensures lists_into { MatchResult result
            (λ _. ListsInto self.old.image self.old.buffer self.old.n self.old.table count self.new.table)
            (λ _. length self.old.slots < count) }
        ensures kept { self.new ≡ record self.old { table = self.new.table; slots = self.new.slots } }
    {
        if self.slots.len() < count {
            return Err(LineError::TooManySlots);
        }
        Ok(self.list_slots(count))
    }

    // The row slots, as the listings left them.
    pub fn slots(&self) -> &[u64]
        ensures { result.now ≡ self.now.slots }
    {
        self.slots
    }
}
