//! What the store forgets.

ghost use Rattle.std.specs.Prelude.{ℕ, List, [], ◌≡◌, ◌++◌, length};
ghost use Rattle.rdma_types.specs.declared.answers.Sent.{Sent};
ghost use Rattle.rdma_types.specs.declared.requests.Address.{Address};
ghost use Rattle.protocol.specs.State.{Flight};
ghost use Rattle.protocol.specs.Fabric as rules;
ghost use Rattle.protocol.specs.Fabric.{forgetting};

/// Of every datagram ever sent the store knows all that its rules ask for: what is pending and what a datagram is are
/// told alike of the whole list and of the list whose forgotten datagrams are blank, and what is sent, taken and lost
/// leaves alike lists. So a world that keeps a store says what the rules say of the whole list.
pub fn nothing_asked_for_is_forgotten()
    ensures nothing { forgetting [] ≡ [] }
    ensures count { (sent : List Flight) → length (forgetting sent) ≡ length sent }
    ensures kept { (sent : List Flight) (k : ℕ)
        → rules.kept_flight (forgetting sent) k ≡ rules.kept_flight sent k }
    ensures look { (sent : List Flight) (k now : ℕ)
        → rules.look (forgetting sent) k now ≡ rules.look sent k now }
    ensures pending { (sent : List Flight) → rules.pending (forgetting sent) ≡ rules.pending sent }
    ensures sending { (sent : List Flight) (from : Address) (more : List Sent)
        → forgetting (rules.sending (forgetting sent) from more) ≡ forgetting (rules.sending sent from more) }
    ensures one_by_one { (sent : List Flight) (from : Address) (some more : List Sent)
        → forgetting (rules.sending (forgetting (rules.sending sent from some)) from more) ≡ forgetting (rules.sending sent from (some ++ more)) }
    ensures took { (sent : List Flight) (k : ℕ)
        → rules.took (forgetting sent) k ≡ forgetting (rules.took sent k) }
    ensures losing { (sent : List Flight) (k : ℕ)
        → rules.losing (forgetting sent) k ≡ forgetting (rules.losing sent k) }
    ensures again { (sent : List Flight) → forgetting (forgetting sent) ≡ forgetting sent }
{}
