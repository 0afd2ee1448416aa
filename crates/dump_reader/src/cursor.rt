//! Fields of a dump, read one after the other.

ghost use Rattle.std.specs.Prelude.{◌≡◌, ◌+◌, ◌<◌, ◌≤◌, ◌^◌, ◌==◌, length, true, false, if◌then◌else◌, Ok, Err, IfOk, IfErr, OnErr, take, drop, not, nat_lt, nat_le, ◌&&◌, ◌||◌};
ghost use Rattle.protocol.specs.Bytes.{big_number, big_bytes};
ghost use Rattle.protocol.specs.Dumps.{raw, number, within, Good, Bad, judged};
ghost use Rattle.dump_reader.specs.Fields.{IsNext, IsShort, IsText, IsShortText};
ghost use Rattle.rdma_types.specs.Spelled.{is_name};

use protocol::DumpWhy;
use rdma_types::Name;

/// Where bytes are no dump, and why.
#[derive(Clone, Copy, Debug, PartialEq, Eq)]
pub struct Offence {
    pub place: usize,
    pub why: DumpWhy,
}

/// The bytes that are still to be read, with the place of the first of them in the dump.
#[derive(Clone, Copy)]
pub struct Cursor<'a> {
    pub bytes: &'a [u8],
    pub place: usize,
    /// The place of the field that was read last.
    pub start: usize,
    ghost fits: { place + length bytes.now < 2 ^ 64 },
}

impl<'a> Cursor<'a> {
    /// The next `count` bytes. Errors: `Short` where fewer are left.
    #[tactic(auto, unfolding(protocol::specs::Dumps::raw))]
    pub fn raw(&mut self, count: usize) -> Result<&'a [u8], Offence>
        ensures ok { IfOk result (λ field. raw count self.old.place self.old.bytes.now
            ≡ Good field.now self.new.place self.new.bytes.now) }
        ensures short { IfErr result (λ e. raw count self.old.place self.old.bytes.now
            ≡ Bad e.place e.why) }
        ensures start { self.new.start ≡ self.old.place }
        ensures len { IfOk result (λ field. length field.now ≡ count) }
        ensures passed { IfOk result (λ field. self.new.place ≡ self.old.place + count) }
    {
        self.start = self.place;
        if self.bytes.len() < count {
            return Err(Offence {
                place: self.place + self.bytes.len(),
                why: DumpWhy::Short,
            });
        }
        let (field, rest) = self.bytes.split_at(count);
        self.place += count;
        self.bytes = rest;
        Ok(field)
    }

    /// The next number of one byte. Errors: `Short` where no byte is left.
    #[tactic(auto, unfolding(protocol::specs::Bytes::big_number))]
    pub fn u8(&mut self) -> Result<u8, Offence>
        ensures passed { IfOk result (λ n. self.new.place ≡ self.old.place + 1) }
        ensures ok { IfOk result (λ n. IsNext 1 n self.old.place self.old.bytes.now self.new.place
            self.new.bytes.now) }
        ensures short { IfErr result (λ e. IsShort 1 self.old.place self.old.bytes.now e.place
            e.why) }
        ensures start { self.new.start ≡ self.old.place }
    {
        let field = self.raw(1)?;
        Ok(field[0])
    }

    /// The next text: its length byte and its bytes, which are one field. Errors: `Short` where the bytes end before it
    /// is whole.
    #[tactic(auto, unfolding(protocol::specs::Dumps::after))]
    pub fn text(&mut self) -> Result<&'a [u8], Offence>
        ensures passed { IfOk result (λ text. self.old.place < self.new.place) }
        ensures ok { IfOk result (λ text. IsText text.now self.old.place self.old.bytes.now
            self.new.place self.new.bytes.now) }
        ensures short { IfErr result (λ e. IsShortText self.old.place self.old.bytes.now e.place
            e.why) }
        ensures start { self.new.start ≡ self.old.place }
    {
        let start = self.place;
        let count = self.u8()?;
        let text = self.raw(count as usize);
        self.start = start;
        text
    }

    /// The text that was read last, as a name; `twice` says whether it stands in its list already. Errors: `Name`, at
    /// the place of that field, exactly where the text is no name or stands there already.
    pub fn name(&self, text: &[u8], twice: bool) -> Result<Name, Offence>
        ensures { result ≡ (if is_name text.now
            && not twice then Ok text.now else Err
            (record { place = self.now.start; why = DumpWhy.Name })) }
    {
        match Name::read(text) {
            Some(name) if !twice => Ok(name),
            _ => Err(Offence {
                place: self.start,
                why: DumpWhy::Name,
            }),
        }
    }
}
