//! The fields of a group, read one after the other.

ghost use Rattle.std.specs.Prelude.{◌≡◌, ◌+◌, ◌<◌, ◌≤◌, ◌^◌, ◌==◌, ◌||◌, ◌&&◌, length, nat_lt, nat_le, IfSome, IfNone};
ghost use Rattle.protocol.specs.Dumps.{number, number_by, within, any, Good};

use crate::cursor::{Cursor, Offence};
use byteorder::{BigEndian, ByteOrder};
use protocol::DumpWhy;

/// The fields of a group, read one after the other. The first fault stays: after it nothing more is read, and each number
/// is 0.
#[derive(Clone, Copy)]
pub struct Fields<'a> {
    pub bytes: &'a [u8],
    pub place: usize,
    /// The place of the field that was read last.
    pub start: usize,
    pub fault: Option<Offence>,
    ghost fits: { place + length bytes.now < 2 ^ 64 },
}

impl<'a> Fields<'a> {
    ghost use Rattle.dump_reader.specs.Latched.{Begun, Ended, Keeps, Number, Reads, Stuck, Took};

    /// None was read.
    pub fn of(c: &Cursor<'a>) -> Fields<'a>
        ensures { Begun c.now result }
    {
        Fields {
            bytes: c.bytes,
            place: c.place,
            start: c.place,
            fault: None,
        }
    }

    /// The next `count` bytes, unless there was a fault. Where fewer are left, that is the fault: `Short`.
    #[tactic(auto, unfolding(protocol::specs::Dumps::raw, protocol::specs::Dumps::after))]
    fn raw(&mut self, count: usize) -> Option<&'a [u8]>
        ensures some { IfSome result (λ field. Took count field.now self.old self.new) }
        ensures none { IfNone result (Stuck count self.old self.new) }
    {
        if self.fault.is_some() {
            return None;
        }
        self.start = self.place;
        if self.bytes.len() < count {
            self.fault = Some(Offence {
                place: self.place + self.bytes.len(),
                why: DumpWhy::Short,
            });
            return None;
        }
        let (field, rest) = self.bytes.split_at(count);
        self.place += count;
        self.bytes = rest;
        Some(field)
    }

    /// The next number of one byte.
    pub fn u8(&mut self) -> u8
        ensures { Number 1 result self.old self.new }
    {
        match self.raw(1) {
            Some(field) => field[0],
            None => 0,
        }
    }

    /// The next number of two bytes, the most significant first.
    pub fn u16(&mut self) -> u16
        ensures { Number 2 result self.old self.new }
    {
        match self.raw(2) {
            Some(field) => BigEndian::read_u16(field),
            None => 0,
        }
    }

    /// The next number of four bytes, the most significant first.
    pub fn u32(&mut self) -> u32
        ensures { Number 4 result self.old self.new }
    {
        match self.raw(4) {
            Some(field) => BigEndian::read_u32(field),
            None => 0,
        }
    }

    /// The next number of eight bytes, the most significant first.
    pub fn u64(&mut self) -> u64
        ensures { Number 8 result self.old self.new }
    {
        match self.raw(8) {
            Some(field) => BigEndian::read_u64(field),
            None => 0,
        }
    }

    /// The field that was read last keeps a rule, as `ok` says; else that is the fault, unless there was one.
    pub fn keep_or(&mut self, why: DumpWhy, ok: bool)
        ensures { Keeps why ok self.old self.new }
    {
        if !ok && self.fault.is_none() {
            self.fault = Some(Offence {
                place: self.start,
                why,
            });
        }
    }

    /// The field that was read last keeps a rule, as `ok` says; else the fault is `Field`, unless there was one.
    pub fn keep(&mut self, ok: bool)
        ensures { Keeps DumpWhy.Field ok self.old self.new }
    {
        self.keep_or(DumpWhy::Field, ok);
    }

    /// The next number of one byte, of at most `most`.
    pub fn u8_up_to(&mut self, most: u8) -> u8
        ensures { Reads (number 1 (λ n. nat_le n most)) self.old self.new result }
    {
        let n = self.u8();
        self.keep(n <= most);
        n
    }

    /// The next number of two bytes, below a limit.
    pub fn u16_below(&mut self, limit: usize) -> u16
        ensures { Reads (number 2 (λ n. nat_lt n limit)) self.old self.new result }
    {
        let n = self.u16();
        self.keep((n as usize) < limit);
        n
    }

    /// The next number of two bytes, between two.
    pub fn u16_within(&mut self, low: u16, high: u16) -> u16
        ensures { Reads (number 2 (within low high)) self.old self.new result }
    {
        let n = self.u16();
        self.keep((low..=high).contains(&n));
        n
    }

    /// The next number of four bytes, below a limit.
    pub fn u32_below(&mut self, limit: u32) -> u32
        ensures { Reads (number 4 (λ n. nat_lt n limit)) self.old self.new result }
    {
        let n = self.u32();
        self.keep(n < limit);
        n
    }

    /// The next number of four bytes, between two.
    pub fn u32_within(&mut self, low: u32, high: u32) -> u32
        ensures { Reads (number 4 (within low high)) self.old self.new result }
    {
        let n = self.u32();
        self.keep((low..=high).contains(&n));
        n
    }

    /// The next number of four bytes, 0 unless it may be another.
    pub fn u32_if(&mut self, may_be: bool) -> u32
        ensures { Reads (number 4 (λ n. may_be || n == 0)) self.old self.new result }
    {
        let n = self.u32();
        self.keep(may_be || n == 0);
        n
    }

    /// The next number of eight bytes, below a limit.
    pub fn u64_below(&mut self, limit: u64) -> u64
        ensures { Reads (number 8 (λ n. nat_lt n limit)) self.old self.new result }
    {
        let n = self.u64();
        self.keep(n < limit);
        n
    }

    /// The next number of eight bytes, 0 unless it may be another.
    pub fn u64_if(&mut self, may_be: bool) -> u64
        ensures { Reads (number 8 (λ n. may_be || n == 0)) self.old self.new result }
    {
        let n = self.u64();
        self.keep(may_be || n == 0);
        n
    }

    /// The group is read: the value of its fields, and the cursor stands behind them. Errors: the fault.
    pub fn end<T: Copy>(&self, c: &mut Cursor<'a>, value: T) -> Result<T, Offence>
        ensures { Ended self.now value c.new result }
    {
        match self.fault {
            Some(fault) => Err(fault),
            None => {
                c.bytes = self.bytes;
                c.place = self.place;
                Ok(value)
            }
        }
    }
}
