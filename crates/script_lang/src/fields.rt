//! Readers of one field of a line, and of fields that stand together.

ghost use Rattle.std.specs.Prelude.{◌≡◌, ◌<◌, ◌≤◌, ◌^◌, ℕ, true, IfOk};
ghost use Rattle.script_lang.specs.Words.{Gives, GivesThen, GivesOr, Reads};
ghost use Rattle.rdma_types.specs.declared.requests.Terms.{Terms};
ghost use Rattle.script_lang.specs.Fields as fields;
ghost use Rattle.script_lang.specs.Ranges.{IsIn};
ghost use Rattle.rdma_types.specs.Limits.{is_mtu, AreTerms};

use crate::lines::{LineFault, LineWhy, Offence};
use crate::texts;
use crate::words::Words;
use rdma_types::{Address, Items, Name, ObjName, Rights, Terms};
use std::alloc::Global;

impl Words<'_> {
    /// A name. Errors: `Missing` where no word is left, or `Name` where the word is no name.
    #[tactic(auto, unfolding(crate::specs::Fields::a_name))]
    pub fn name(&mut self) -> Result<Name, Offence>
        ensures { Gives result self.new (fields.a_name self.old) }
    {
        let word = self.word()?;
        texts::name(word.text).ok_or(word.bad(LineWhy::Name))
    }

    /// An object, `context.name`. Errors: `Missing` where no word is left, or `Name` where the word is no object.
    #[tactic(auto, unfolding(crate::specs::Fields::an_object))]
    #[inline(always)]
    pub fn object(&mut self) -> Result<ObjName, Offence>
        ensures { Gives result self.new (fields.an_object self.old) }
    {
        if let Some(object) = self.short_object() {
            return Ok(object);
        }
        let word = self.word()?;
        texts::object(word.text).ok_or(word.bad(LineWhy::Name))
    }

    /// The name of an object in the context of another one; None where it is in a context of its own. Errors: `Missing`
    /// where no word is left, or `Name` where the word is no object.
    #[tactic(auto, unfolding(crate::specs::Fields::an_own))]
    pub fn own(&mut self, object: &ObjName) -> Result<Option<Name>, Offence>
        ensures { Gives result self.new (fields.an_own object.now self.old) }
    {
        let other = self.object()?;
        Ok((object.context == other.context).then_some(other.name))
    }

    /// A number from `low` to `high`. Errors: `Missing` where no word is left, or `Number` where the word is no such
    /// number.
    #[tactic(auto, unfolding(crate::specs::Fields::a_number))]
    #[inline(always)]
    pub fn number(&mut self, low: u64, high: u64) -> Result<u64, Offence>
        ensures value { Gives result self.new (fields.a_number low high self.old) }
        ensures within { IfOk result (λ n. (low ≤ n) × (n ≤ high)) }
    {
        if let Some(n) = self.short_number(low, high) {
            return Ok(n);
        }
        let word = self.word()?;
        texts::number(word.text, low, high).ok_or(word.bad(LineWhy::Number))
    }

    /// A number of 64 bits. Errors: `Missing` where no word is left, or `Number` where the word is no such number.
    pub fn long(&mut self) -> Result<u64, Offence>
        ensures { Gives result self.new (fields.a_long self.old) }
    {
        self.number(0, u64::MAX)
    }

    /// A number of 32 bits. Errors: `Missing` where no word is left, or `Number` where the word is no such number.
    pub fn short(&mut self) -> Result<u32, Offence>
        ensures { Gives result self.new (fields.a_short self.old) }
    {
        Ok(self.number(0, u64::from(u32::MAX))? as u32)
    }

    /// The id of a device, 1 to 255. Errors: `Missing` where no word is left, or `Number` where the word is no such
    /// number.
    pub fn device(&mut self) -> Result<u8, Offence>
        ensures value { Gives result self.new (fields.a_device self.old) }
        ensures within { IfOk result (IsIn 1 255) }
    {
        Ok(self.number(1, 255)? as u8)
    }

    /// An MTU.
    #[tactic(auto, unfolding(crate::specs::Fields::an_mtu))]
    fn mtu(&mut self) -> Result<u32, Offence>
        ensures value { Gives result self.new (fields.an_mtu self.old) }
        ensures one { IfOk result (λ n. is_mtu n ≡ true) }
    {
        let word = self.word()?;
        texts::mtu(word.text).ok_or(word.bad(LineWhy::Number))
    }

    /// A key or an immediate, of eight hexadecimal digits. Errors: `Missing` where no word is left, or `Hex` where the
    /// word is none.
    #[tactic(auto, unfolding(crate::specs::Fields::a_key))]
    #[inline(always)]
    pub fn key(&mut self) -> Result<u32, Offence>
        ensures { Gives result self.new (fields.a_key self.old) }
    {
        let word = self.word()?;
        texts::key(word.text).ok_or(word.bad(LineWhy::Hex))
    }

    /// The number of a queue pair, of six hexadecimal digits. Errors: `Missing` where no word is left, or `Hex` where
    /// the word is none.
    #[tactic(auto, unfolding(crate::specs::Fields::a_queue_pair))]
    pub fn queue_pair(&mut self) -> Result<u32, Offence>
        ensures value { Gives result self.new (fields.a_queue_pair self.old) }
        ensures small { IfOk result (λ n. n < 2 ^ 24) }
    {
        let word = self.word()?;
        texts::queue_pair(word.text).ok_or(word.bad(LineWhy::Hex))
    }

    /// Bytes of 2 to 8,192 hexadecimal digits. Errors: `Missing` where no word is left, `Hex` where the word is none,
    /// or `OutOfMemory`.
    #[tactic(auto, unfolding(crate::specs::Fields::some_bytes))]
    pub fn bytes(&mut self, alloc: Global) -> Result<Items<u8>, LineFault>
        ensures { GivesOr result self.new (fields.some_bytes self.old) }
    {
        let word = self.word()?;
        match texts::bytes(alloc, word.text)? {
            Some(bytes) => Ok(bytes),
            None => Err(word.bad(LineWhy::Hex).into()),
        }
    }

    /// Rights: `-` for none, or their letters. Errors: `Missing` where no word is left, or `Rights` where the word is
    /// neither.
    #[tactic(auto, unfolding(crate::specs::Fields::some_rights))]
    pub fn rights(&mut self) -> Result<Rights, Offence>
        ensures value { Gives result self.new (fields.some_rights self.old) }
        ensures four { IfOk result (λ r. r.0 ≤ 15) }
    {
        let word = self.word()?;
        texts::rights(word.text).ok_or(word.bad(LineWhy::Rights))
    }

    /// An IPv4 address, and perhaps a colon and a port. Errors: `Missing` where no word is left, or `Address` where the
    /// word is none.
    #[tactic(auto, unfolding(crate::specs::Fields::an_address))]
    pub fn address(&mut self) -> Result<Address, Offence>
        ensures { Gives result self.new (fields.an_address self.old) }
    {
        let word = self.word()?;
        texts::address(word.text).ok_or(word.bad(LineWhy::Address))
    }

    /// This word.
    #[tactic(auto, unfolding(crate::specs::Fields::the_word))]
    fn fixed(&mut self, text: &[u8]) -> Result<(), Offence>
        ensures { Gives result self.new (fields.the_word text.now self.old) }
    {
        let word = self.word()?;
        if word.text != text {
            return Err(word.bad(LineWhy::BadOption));
        }
        Ok(())
    }

    /// This word, and a number from `low` to `high` behind it.
    fn labeled(&mut self, label: &[u8], low: u64, high: u64) -> Result<u64, Offence>
        ensures value { (more : ℕ → Reads Terms)
            → GivesThen result self.new more (fields.labeled_then label.now low high more
            self.old) }
        ensures within { IfOk result (λ n. (low ≤ n) × (n ≤ high)) }
    {
        self.fixed(label)?;
        self.number(low, high)
    }

    /// `imm` and an immediate, where `imm` stands next. Errors: behind `imm`, those of `key`.
    #[tactic(auto, unfolding(crate::specs::Fields::an_immediate))]
    pub fn immediate(&mut self) -> Result<Option<u32>, Offence>
        ensures { Gives result self.new (fields.an_immediate self.old) }
    {
        if !self.option(b"imm") {
            return Ok(None);
        }
        Ok(Some(self.key()?))
    }

    /// `mtu` m `psn` own peer `retry` r `rnr` w `reads` n
    ///
    /// Errors: at the first word that is wrong, `Missing` where it is not there, `BadOption` where it is not the word
    /// that must stand there, or `Number` where it is out of its range: one of the five MTUs, own and peer 0 to
    /// 16,777,215, r and w 0 to 7, n 1 to 16.
    #[tactic(auto, unfolding(crate::specs::Fields::some_terms))]
    pub fn terms(&mut self) -> Result<Terms, Offence>
        ensures value { Gives result self.new (fields.some_terms self.old) }
        ensures lawful { IfOk result AreTerms }
    {
        self.fixed(b"mtu")?;
        let mtu = self.mtu()?;
        let own_start = self.labeled(b"psn", 0, 0xff_ffff)? as u32;
        let peer_start = self.number(0, 0xff_ffff)? as u32;
        let retry = self.labeled(b"retry", 0, 7)? as u8;
        let rnr = self.labeled(b"rnr", 0, 7)? as u8;
        let reads = self.labeled(b"reads", 1, 16)? as u8;
        Ok(Terms {
            mtu,
            own_start,
            peer_start,
            retry,
            rnr,
            reads,
        })
    }
}
