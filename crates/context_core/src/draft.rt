//! The datagrams of a step, in memory that the caller lends.

ghost use Rattle.std.specs.Prelude.{◌≡◌, ◌<◌, ◌++◌, ◌^◌, [], IfNone, IfOk, IsSome, length, reverse, slice_get, vec_capacity};
ghost use Rattle.std.specs.Option.{option_copied, option_to_list};

use crate::Buffers;
use rdma_types::{Items, Sent};
use std::alloc::{AllocError, Global};
use std::marker::Model;

/// The datagrams of a step, and memory for those to come. Its owner lends it to a step, and takes out of it what the step
/// sent. A step sends one datagram at most, or the responses of one READ. Contracts see the datagrams in their order.
#[derive(Drop)]
pub struct Draft {
    /// The one datagram of a step.
    pub(crate) sent: Option<Sent>,
    /// The responses of a READ, the last one first.
    pub(crate) responses: Vec<Sent>,
    pub(crate) buffers: Buffers,
}

impl Model for Draft {
    ghost use Rattle.std.specs.Prelude.{◌≡◌, ◌⊎◌, ◌++◌, [], List, None, reverse};
    ghost use Rattle.std.specs.Option.{option_to_list};
    ghost use Rattle.rdma_types.specs.declared.answers.Sent as answers;

    ghost Value = { List answers.Sent };

    ghost view = { λ d. option_to_list d.sent ++ reverse d.responses.items };

    ghost invariant = { λ d. (d.sent ≡ None) ⊎ (d.responses.items ≡ []) };
}

/// READ response `i` of these, of which the last one stands first; None where there are fewer.
fn response_at(responses: &Vec<Sent>, i: usize) -> Option<&Sent>
    ensures response { option_copied result ≡ slice_get (reverse responses.now.items) i }
    ensures few { IsSome result → i < 2 ^ 63 }
{
    let last = responses.len().checked_sub(1)?;
    responses.get(last.checked_sub(i)?)
}

impl Draft {
    /// No datagram, and no memory for datagrams yet. Errors: `AllocError` when out of memory.
    pub fn make(alloc: Global) -> Result<Draft, AllocError>
        ensures { IfOk result (λ d. d ≡ []) }
    {
        Ok(Draft {
            sent: None,
            responses: Vec::new(alloc),
            buffers: Buffers::make(alloc)?,
        })
    }

    /// How many datagrams there are.
    #[inline(always)]
    pub fn len(&self) -> u64
        ensures { result ≡ length self.now }
    {
        u64::from(self.sent.is_some()) + self.responses.len() as u64
    }

    /// Datagram `i`; None where there are fewer.
    pub fn get(&self, i: usize) -> Option<&Sent>
        ensures datagram { option_copied result ≡ slice_get self.now i }
        ensures few { IsSome result → i < 2 ^ 63 }
    {
        match &self.sent {
            Some(sent) if i == 0 => Some(sent),
            _ => response_at(&self.responses, i),
        }
    }

    /// Nothing is in it.
    #[inline(always)]
    pub fn clear(&mut self)
        ensures { self.new ≡ [] }
    {
        if let Some(sent) = self.sent.take() {
            self.buffers.give(sent.bytes.into_vec());
        }
        if self.responses.len() > 0 {
            self.responses.clear();
        }
    }

    /// Takes the first datagram out; None exactly where there is none. It takes no memory.
    #[inline(always)]
    pub fn pop(&mut self) -> Option<Sent>
        ensures taken { option_to_list result ++ self.new ≡ self.old }
        ensures none { IfNone result (self.old ≡ []) }
    {
        match self.sent.take() {
            Some(sent) => Some(sent),
            None => self.responses.pop(),
        }
    }

    /// These datagrams are in it, and what was there before is gone. It takes no memory.
    pub fn put_all(&mut self, sent: Items<Sent>)
        ensures { self.new ≡ sent }
    {
        self.clear();
        self.responses = sent.into_vec();
        self.responses.reverse();
    }

    /// Takes all datagrams out, in this list or in that of the responses, in whose place this list stays then. It takes no
    /// memory.
    pub fn take_all(&mut self, mut list: Vec<Sent>) -> Items<Sent>
        requires empty { list.items ≡ [] }
        requires room { length self.old ≡ 1 → 0 < vec_capacity list }
        ensures taken { result ≡ self.old }
        ensures rest { self.new ≡ [] }
    {
        if let Some(sent) = self.sent.take() {
            list.push(sent).unwrap();
            return Items::new(list);
        }
        let mut list = std::mem::replace(&mut self.responses, list);
        list.reverse();
        Items::new(list)
    }

    /// Takes the memory of a datagram that is no longer needed, to be filled again. It takes no other.
    #[inline(always)]
    pub fn give(&mut self, bytes: Items<u8>)
        ensures { self.new ≡ self.old }
    {
        self.buffers.give(bytes.into_vec());
    }

    /// Takes the memory of a list of datagrams, to be filled again. What is in the list goes.
    #[inline(always)]
    pub fn give_list(&mut self, list: Vec<Sent>)
        ensures { self.new ≡ self.old }
    {
        self.buffers.give_list(list);
    }
}
