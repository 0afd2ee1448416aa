//! The protection domains of a context.

ghost use Rattle.std.specs.Prelude.{◌≡◌, ◌++◌, ◌∷◌, [], OnErr, OnOk};
ghost use Rattle.rdma_types.specs.Causes.{first_cause};
ghost use Rattle.protocol.specs.State.{Context};
ghost use Rattle.context_core.specs.Causes.{domain_causes};
ghost use Rattle.context_core.specs.Faults.{refusal_of};

use crate::ContextFault;
use indexmap::IndexSet;
use rdma_types::{Name, Refusal};

/// How many domains a context may have (this project's choice).
const MOST_DOMAINS: usize = 64;

/// Why no domain of this name is made.
fn refusal(domains: &IndexSet<Name>, name: Name) -> Option<Refusal>
    ensures { (c : Context) → c.domains ≡ domains.now.keys
        → result ≡ first_cause (domain_causes c name) }
{
    if domains.contains(&name) {
        return Some(Refusal::NumberTaken);
    }
    (domains.len() >= MOST_DOMAINS).then_some(Refusal::TooMany)
}

/// Makes a domain behind the others. Errors: refused for the first of these causes that holds (this project's choice):
/// `NumberTaken` where a domain has the name, `TooMany` where there are 64 domains; or `OutOfMemory`. The domains are
/// then as they were.
pub fn make(domains: &mut IndexSet<Name>, name: Name) -> Result<(), ContextFault>
    ensures refused { (c : Context) → c.domains ≡ domains.old.keys
        → refusal_of result ≡ first_cause (domain_causes c name) }
    ensures made { OnOk result (domains.new.keys ≡ domains.old.keys ++ name ∷ []) }
    ensures err { OnErr result (domains.new.keys ≡ domains.old.keys) }
{
    if let Some(refusal) = refusal(domains, name) {
        return Err(refusal.into());
    }
    domains.reserve(1)?;
    domains.insert(name).unwrap();
    Ok(())
}
