//! What an end sends next, and the end of its RNR timer.

ghost use Rattle.std.specs.Prelude.{◌≡◌, ℕ, List, All, Some, IsSome, IfSome};
ghost use Rattle.std.specs.Option.{option_map};
ghost use Rattle.page_pool.specs.Pool.{Pool};
ghost use Rattle.memory_keys.specs.declared.RegisteredRegion.{RegisteredRegion};
ghost use Rattle.protocol.specs.State.{Context};
ghost use Rattle.protocol.specs.EndWords.{with_sender};
ghost use Rattle.protocol.specs.Requester.{transmission, waited_out};
ghost use Rattle.rdma_types.specs.declared.names.Name.{Name};
ghost use Rattle.endpoint_core.specs.Answers.{IsPacketOf, link_after_row, row_in, sent_at, transmission_at, waited_at};
ghost use Rattle.endpoint_core.specs.Ends.{KeepsLink, Names, link_in, untold_by};
ghost use Rattle.endpoint_core.specs.Queues.{promised};
ghost use Rattle.endpoint_core.specs.Sites.{IsHome, KeepsEnd, EndWithMemory, end_at, home};
ghost use Rattle.endpoint_core.specs.Sound.{IsEnd, IsPosted};

use crate::answers::EndSend;
use crate::end::{EndLink, Endpoint};
use requester::Transmit;
use transport::move_core::Phase;

impl Endpoint {
    /// Sends the next packet, or says why none is sent, by the first row of the table that holds.
    pub fn transmit(&mut self) -> EndSend
        requires connected { IsSome self.old.link }
        ensures row { (pool : Pool) (held : List RegisteredRegion) → IsEnd pool held self.old
            → transmission_at (option_map (link_in pool) self.old.link) ≡ row_in pool self.old.link result }
        ensures packet { (pool : Pool) (held : List RegisteredRegion) → IsEnd pool held self.old
            → IfSome self.old.link (λ l. IsPacketOf pool l result) }
        ensures step { (s : EndWithMemory) → s.end ≡ self.old → IsEnd s.pool s.held self.old → (c : Context) (names : Names) → IsHome c names s
            → sent_at c (end_at names s) (end_at names s).link ≡ home c names (record s { end = self.new }) }
        ensures sound { (pool : Pool) (held : List RegisteredRegion) → IsEnd pool held self.old
            → IsEnd pool held self.new }
        ensures end { KeepsEnd self.old self.new }
        ensures untold { untold_by self.new.link ≡ untold_by self.old.link }
        ensures reserved { (send recv place : ℕ)
            → promised send recv self.new place ≡ promised send recv self.old place }
    {
        let Some(link) = &mut self.link else {
            unreachable!()
        };
        link.send()
    }

    /// The RNR timer is over. Answers whether the end waited for it.
    pub fn rnr_over(&mut self) -> bool
        requires connected { IsSome self.old.link }
        ensures waited { IfSome self.old.link (λ l. result ≡ l.requester.numbers.rnr_wait) }
        ensures step { (s : EndWithMemory) → s.end ≡ self.old → (c : Context) (names : Names) → IsHome c names s
            → waited_at c (end_at names s) (end_at names s).link ≡ home c names (record s { end = self.new }) }
        ensures sound { (pool : Pool) (held : List RegisteredRegion) → IsEnd pool held self.old
            → IsEnd pool held self.new }
        ensures end { KeepsEnd self.old self.new }
        ensures untold { untold_by self.new.link ≡ untold_by self.old.link }
        ensures reserved { (send recv place : ℕ)
            → promised send recv self.new place ≡ promised send recv self.old place }
    {
        let Some(link) = &mut self.link else {
            unreachable!()
        };
        link.wait_over()
    }
}

impl EndLink {
    /// The next packet of a connected end, or why none is sent.
    fn send(&mut self) -> EndSend
        ensures row { (pool : Pool) → self.old.requester.terms ≡ self.old.terms
            → transmission (link_in pool self.old) ≡ row_in pool (Some self.old) result }
        ensures packet { (pool : Pool) (held : List RegisteredRegion) (domain : Name) → self.old.requester.terms ≡ self.old.terms → All (IsPosted pool held domain) self.old.requester.items
            → IsPacketOf pool self.old result }
        ensures next { (pool : Pool) → self.old.requester.terms ≡ self.old.terms
            → link_after_row (link_in pool self.old) (transmission (link_in pool self.old))
            ≡ link_in pool self.new }
        ensures keeps { KeepsLink self.old self.new }
    {
        if self.ended {
            return EndSend::Transmit(Transmit::Waiting);
        }
        match self.moves.phase {
            Phase::Running => EndSend::Transmit(self.requester.transmit()),
            Phase::Paused => EndSend::Transmit(Transmit::Waiting),
            Phase::Resuming => EndSend::Resume {
                count: u32::from(self.moves.own),
            },
        }
    }

    /// The end of the RNR timer.
    fn wait_over(&mut self) -> bool
        ensures waited { result ≡ self.old.requester.numbers.rnr_wait }
        ensures next { (pool : Pool)
            → with_sender (link_in pool self.old) (waited_out (link_in pool self.old).sender)
            ≡ link_in pool self.new }
        ensures keeps { KeepsLink self.old self.new }
    {
        self.requester.rnr_over()
    }
}
