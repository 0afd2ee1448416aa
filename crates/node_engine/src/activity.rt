//! Which queue pairs are active, and since when one is not.

ghost use Rattle.std.specs.Prelude.{◌≡◌, [], ◌∷◌, OnOk, IfOk};
ghost use Rattle.node_rules.specs.Node.{connected, number_at};
ghost use Rattle.node_rules.specs.Serve as rules;
ghost use Rattle.node_engine.specs.Names.{listed, names_of};

use crate::state::Node;
use device_core::{Device, LiveEnd, Outcome};
use indexmap::IndexMap;
use rdma_types::{Answer, ArrivalEffect, ObjName};
use roce_headers::decode;
use std::alloc::AllocError;

/// Ticks without activity after which an end expires.
const QUIET_TICKS: u64 = 100;

/// Whether a step sent a datagram, or took one and was not silent.
pub(crate) fn is_active(outcome: &Outcome) -> bool
    ensures { result ≡ rules.is_active outcome.now }
{
    if outcome.sent.len() > 0 {
        return true;
    }
    match outcome.answer {
        Answer::Took {
            took: ArrivalEffect::Silent(_),
            ..
        } => false,
        Answer::Took { .. } => true,
        _ => false,
    }
}

/// The number of the connected end to which bytes go; None where they go to none.
fn receiver(device: &Device, bytes: &[u8]) -> Option<u32>
    ensures { listed result ≡ rules.receivers device.now bytes.now }
{
    let Ok(datagram) = decode(bytes) else {
        return None;
    };
    match device.marks(datagram.dest) {
        Some(_) => Some(datagram.dest),
        None => None,
    }
}

/// The number of an end; 0 where none has the name.
fn number_of(device: &Device, end: &ObjName) -> u32
    ensures { result ≡ number_at device.now end.now }
{
    match device.end_named(end) {
        Some(view) => view.number,
        None => 0,
    }
}

/// Lists the ends of a device in place of what was listed. Errors: `AllocError` when out of memory.
fn list_ends(device: &Device, live: &mut Vec<LiveEnd>) -> Result<(), AllocError>
    ensures { OnOk result (names_of live.new.items ≡ connected device.now) }
{
    live.clear();
    device.push_ends(live)
}

/// Dates the active ends. Errors: `AllocError` when out of memory.
fn date(moments: &mut IndexMap<u32, u64>, active: &[u32], now: u64) -> Result<(), AllocError>
    ensures { OnOk result (moments.new.entries ≡ rules.dated now active.now moments.old.entries) }
{
    for number in active {
        moments.insert(*number, now)?;
    }
    Ok(())
}

impl Node {
    /// The number of the connected end to which bytes go; None where they go to none.
    pub(crate) fn receiver(&self, bytes: &[u8]) -> Option<u32>
        ensures { listed result ≡ rules.receivers self.now.device bytes.now }
    {
        receiver(&self.device, bytes)
    }

    /// Lists the ends in place of what was listed. Errors: `AllocError` when out of memory.
    pub(crate) fn list_ends(&self, live: &mut Vec<LiveEnd>) -> Result<(), AllocError>
        ensures { OnOk result (names_of live.new.items ≡ connected self.now.device) }
    {
        list_ends(&self.device, live)
    }

    /// The number of an end; 0 where none has the name.
    pub(crate) fn number_of(&self, end: &ObjName) -> u32
        ensures { result ≡ number_at self.now.device end.now }
    {
        number_of(&self.device, end)
    }

    /// Marks an end as active in this turn, where the step was an active one. Errors: `AllocError` when out of memory.
    pub(crate) fn mark(&mut self, number: Option<u32>, outcome: &Outcome) -> Result<(), AllocError>
        ensures { OnOk result (self.new ≡ rules.marking (rules.is_active outcome.now)
            (listed number) self.old) }
    {
        let Some(number) = number else {
            return Ok(());
        };
        if is_active(outcome) {
            self.active.push(number)?;
        }
        Ok(())
    }

    /// The clock was asked. Errors: `AllocError` when out of memory.
    pub(crate) fn ask(&mut self, now: u64) -> Result<(), AllocError>
        ensures { OnOk result (self.new ≡ rules.asked self.old now) }
    {
        date(&mut self.moments, &self.active, now)?;
        self.begun = Some(self.begun.unwrap_or(now));
        Ok(())
    }

    /// Whether an end was not active for 100 ticks, where the clock was asked.
    pub(crate) fn is_due(&self, now: u64, end: &ObjName) -> bool
        ensures { result ≡ rules.is_due self.now now end.now }
    {
        let begun = self.begun.unwrap_or(now);
        let last = match self.moments.get(&self.number_of(end)) {
            Some(moment) => *moment,
            None => begun,
        };
        now.saturating_sub(last) >= QUIET_TICKS
    }
}
