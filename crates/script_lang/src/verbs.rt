//! The lines of verbs, which scripts of a world and of a node share.

ghost use Rattle.std.specs.Prelude.{◌≡◌, ◌≢◌, Err, IfOk};
ghost use Rattle.script_lang.specs.declared.lines.LineFault.TheVariants as fault;
ghost use Rattle.script_lang.specs.declared.forms.VerbForm.TheVariants as form_is;
ghost use Rattle.rdma_types.specs.Shapes.{IsLawfulShape};
ghost use Rattle.script_lang.specs.Ranges.{IsLawfulVerb, IsOfNode};
ghost use Rattle.script_lang.specs.Verbs as verbs;
ghost use Rattle.rdma_types.specs.declared.verbs.Verb.{Verb};
ghost use Rattle.script_lang.specs.declared.verbs.PostHead.{PostHead};
ghost use Rattle.script_lang.specs.Words.{Gives, GivesThen, GivesOr, Reads};

use crate::forms::VerbForm;
use crate::lines::{LineFault, Offence};
use crate::words::Words;
use rdma_types::{Kind, ObjName, Receive, Request, Shape, Verb};
use std::alloc::Global;

/// `domain` O
#[tactic(auto, unfolding(crate::specs::Verbs::domain_line))]
fn domain(words: &mut Words<'_>) -> Result<Verb, Offence>
    ensures value { Gives result words.new (verbs.domain_line words.old) }
    ensures lawful { IfOk result IsLawfulVerb }
    ensures shared { IfOk result IsOfNode }
{
    let name = words.object()?;
    Ok(Verb::MakeDomain { name })
}

/// `region` O domain base length rights
#[tactic(auto, unfolding(crate::specs::Verbs::region_line))]
fn region(words: &mut Words<'_>) -> Result<Verb, Offence>
    ensures value { Gives result words.new (verbs.region_line words.old) }
    ensures lawful { IfOk result IsLawfulVerb }
    ensures shared { IfOk result IsOfNode }
{
    let name = words.object()?;
    let domain = words.own(&name)?;
    let base = words.number(0, 1 << 63)?;
    let length = words.number(1, 16_777_216)? as u32;
    let rights = words.rights()?;
    Ok(Verb::MakeRegion {
        name,
        domain,
        base,
        length,
        rights,
    })
}

/// `cq` O capacity
#[tactic(auto, unfolding(crate::specs::Verbs::cq_line))]
fn cq(words: &mut Words<'_>) -> Result<Verb, Offence>
    ensures value { Gives result words.new (verbs.cq_line words.old) }
    ensures lawful { IfOk result IsLawfulVerb }
    ensures shared { IfOk result IsOfNode }
{
    let name = words.object()?;
    let capacity = words.number(1, 16_384)? as u32;
    Ok(Verb::MakeCq { name, capacity })
}

/// `qp` O domain sendcq recvcq sdepth rdepth
#[tactic(auto, unfolding(crate::specs::Verbs::qp_line))]
fn qp(words: &mut Words<'_>) -> Result<Verb, Offence>
    ensures value { Gives result words.new (verbs.qp_line words.old) }
    ensures lawful { IfOk result IsLawfulVerb }
    ensures shared { IfOk result IsOfNode }
{
    let name = words.object()?;
    let domain = words.own(&name)?;
    let send_cq = words.own(&name)?;
    let recv_cq = words.own(&name)?;
    let send_depth = words.number(1, 256)? as u32;
    let recv_depth = words.number(1, 256)? as u32;
    Ok(Verb::MakeQp {
        name,
        domain,
        send_cq,
        recv_cq,
        send_depth,
        recv_depth,
    })
}

/// `drop` O
#[tactic(auto, unfolding(crate::specs::Verbs::drop_line))]
fn drop_region(words: &mut Words<'_>) -> Result<Verb, Offence>
    ensures value { Gives result words.new (verbs.drop_line words.old) }
    ensures lawful { IfOk result IsLawfulVerb }
    ensures shared { IfOk result IsOfNode }
{
    let name = words.object()?;
    Ok(Verb::DropRegion { name })
}

/// `store` region address bytes
#[tactic(auto, unfolding(crate::specs::Verbs::store_line))]
fn store(alloc: Global, words: &mut Words<'_>) -> Result<Verb, LineFault>
    ensures value { GivesOr result words.new (verbs.store_line words.old) }
    ensures lawful { IfOk result IsLawfulVerb }
    ensures shared { IfOk result IsOfNode }
{
    let region = words.object()?;
    let at = words.long()?;
    let bytes = words.bytes(alloc)?;
    Ok(Verb::Store { region, at, bytes })
}

/// `load` region address length
#[tactic(auto, unfolding(crate::specs::Verbs::load_line))]
fn load(words: &mut Words<'_>) -> Result<Verb, Offence>
    ensures value { Gives result words.new (verbs.load_line words.old) }
    ensures lawful { IfOk result IsLawfulVerb }
    ensures shared { IfOk result IsOfNode }
{
    let region = words.object()?;
    let at = words.long()?;
    let length = words.number(1, 4096)? as u32;
    Ok(Verb::Load { region, at, length })
}

/// What each line of a posting begins with: an end, an id, and a place in the end's memory.
#[derive(Clone, Copy)]
struct PostHead {
    end: ObjName,
    id: u64,
    lkey: u32,
    local: u64,
}

/// O id lkey address
#[tactic(auto, unfolding(crate::specs::Verbs::posting_then))]
#[inline(always)]
fn posting(words: &mut Words<'_>) -> Result<PostHead, Offence>
    ensures { (more : PostHead → Reads Verb)
        → GivesThen result words.new more (verbs.posting_then more words.old) }
{
    let end = words.object()?;
    let id = words.long()?;
    let lkey = words.key()?;
    let local = words.long()?;
    Ok(PostHead {
        end,
        id,
        lkey,
        local,
    })
}

/// A request of this shape, with its options.
#[tactic(auto, unfolding(crate::specs::Verbs::posted))]
#[inline(always)]
fn posted(words: &mut Words<'_>, at: &PostHead, shape: Shape) -> Result<Verb, Offence>
    requires { IsLawfulShape shape }
    ensures value { Gives result words.new (verbs.posted at.now.end at.now.id at.now.lkey
        at.now.local shape words.old) }
    ensures lawful { IfOk result IsLawfulVerb }
    ensures shared { IfOk result IsOfNode }
{
    let fence = words.option(b"fence");
    let quiet = words.option(b"quiet");
    let request = Request {
        id: at.id,
        shape,
        lkey: at.lkey,
        local: at.local,
        signaled: !quiet,
        fence,
    };
    Ok(Verb::PostSend {
        end: at.end,
        request,
    })
}

/// `write` O id lkey address length raddress rkey, and perhaps `imm` i, `fence`, `quiet`
#[tactic(auto, unfolding(crate::specs::Verbs::write_line))]
#[inline(always)]
fn write(words: &mut Words<'_>) -> Result<Verb, Offence>
    ensures value { Gives result words.new (verbs.write_line words.old) }
    ensures lawful { IfOk result IsLawfulVerb }
    ensures shared { IfOk result IsOfNode }
{
    let at = posting(words)?;
    let length = words.short()?;
    let remote = words.long()?;
    let rkey = words.key()?;
    let imm = words.immediate()?;
    let shape = Shape {
        kind: Kind::Write,
        length,
        remote,
        rkey,
        imm,
        swap_add: 0,
        compare: 0,
    };
    posted(words, &at, shape)
}

/// `send` O id lkey address length, and perhaps `imm` i, `fence`, `quiet`
#[tactic(auto, unfolding(crate::specs::Verbs::send_line))]
fn send(words: &mut Words<'_>) -> Result<Verb, Offence>
    ensures value { Gives result words.new (verbs.send_line words.old) }
    ensures lawful { IfOk result IsLawfulVerb }
    ensures shared { IfOk result IsOfNode }
{
    let at = posting(words)?;
    let length = words.short()?;
    let imm = words.immediate()?;
    let shape = Shape {
        kind: Kind::Send,
        length,
        remote: 0,
        rkey: 0,
        imm,
        swap_add: 0,
        compare: 0,
    };
    posted(words, &at, shape)
}

/// `read` O id lkey address length raddress rkey, and perhaps `fence`, `quiet`
#[tactic(auto, unfolding(crate::specs::Verbs::read_line))]
fn read(words: &mut Words<'_>) -> Result<Verb, Offence>
    ensures value { Gives result words.new (verbs.read_line words.old) }
    ensures lawful { IfOk result IsLawfulVerb }
    ensures shared { IfOk result IsOfNode }
{
    let at = posting(words)?;
    let length = words.short()?;
    let remote = words.long()?;
    let rkey = words.key()?;
    let shape = Shape {
        kind: Kind::Read,
        length,
        remote,
        rkey,
        imm: None,
        swap_add: 0,
        compare: 0,
    };
    posted(words, &at, shape)
}

/// `cas` O id lkey address raddress rkey compare swap, and perhaps `fence`, `quiet`
#[tactic(auto, unfolding(crate::specs::Verbs::cas_line))]
fn cas(words: &mut Words<'_>) -> Result<Verb, Offence>
    ensures value { Gives result words.new (verbs.cas_line words.old) }
    ensures lawful { IfOk result IsLawfulVerb }
    ensures shared { IfOk result IsOfNode }
{
    let at = posting(words)?;
    let remote = words.long()?;
    let rkey = words.key()?;
    let compare = words.long()?;
    let swap_add = words.long()?;
    let shape = Shape {
        kind: Kind::CompareSwap,
        length: 8,
        remote,
        rkey,
        imm: None,
        swap_add,
        compare,
    };
    posted(words, &at, shape)
}

/// `add` O id lkey address raddress rkey value, and perhaps `fence`, `quiet`
#[tactic(auto, unfolding(crate::specs::Verbs::add_line))]
fn add(words: &mut Words<'_>) -> Result<Verb, Offence>
    ensures value { Gives result words.new (verbs.add_line words.old) }
    ensures lawful { IfOk result IsLawfulVerb }
    ensures shared { IfOk result IsOfNode }
{
    let at = posting(words)?;
    let remote = words.long()?;
    let rkey = words.key()?;
    let swap_add = words.long()?;
    let shape = Shape {
        kind: Kind::FetchAdd,
        length: 8,
        remote,
        rkey,
        imm: None,
        swap_add,
        compare: 0,
    };
    posted(words, &at, shape)
}

/// `recv` O id lkey address length
#[tactic(auto, unfolding(crate::specs::Verbs::recv_line))]
fn recv(words: &mut Words<'_>) -> Result<Verb, Offence>
    ensures value { Gives result words.new (verbs.recv_line words.old) }
    ensures lawful { IfOk result IsLawfulVerb }
    ensures shared { IfOk result IsOfNode }
{
    let at = posting(words)?;
    let length = words.short()?;
    let receive = Receive {
        id: at.id,
        lkey: at.lkey,
        local: at.local,
        length,
    };
    Ok(Verb::PostRecv {
        end: at.end,
        receive,
    })
}

/// `poll` cq max
#[tactic(auto, unfolding(crate::specs::Verbs::poll_line))]
#[inline(always)]
fn poll(words: &mut Words<'_>) -> Result<Verb, Offence>
    ensures value { Gives result words.new (verbs.poll_line words.old) }
    ensures lawful { IfOk result IsLawfulVerb }
    ensures shared { IfOk result IsOfNode }
{
    let cq = words.object()?;
    let max = words.number(1, 256)? as u32;
    Ok(Verb::Poll { cq, max })
}

/// What the words behind the first say, of a verb that takes no memory.
#[inline(always)]
fn plain_verb(form: VerbForm, words: &mut Words<'_>) -> Result<Verb, Offence>
    requires { form ≢ form_is.Store }
    ensures value { Gives result words.new (verbs.verb_line form words.old) }
    ensures lawful { IfOk result IsLawfulVerb }
    ensures shared { IfOk result IsOfNode }
{
    match form {
        VerbForm::Store => unreachable!(),
        VerbForm::Domain => domain(words),
        VerbForm::Region => region(words),
        VerbForm::Cq => cq(words),
        VerbForm::Qp => qp(words),
        VerbForm::Drop => drop_region(words),
        VerbForm::Load => load(words),
        VerbForm::Write => write(words),
        VerbForm::Send => send(words),
        VerbForm::Read => read(words),
        VerbForm::CompareSwap => cas(words),
        VerbForm::FetchAdd => add(words),
        VerbForm::Recv => recv(words),
        VerbForm::Poll => poll(words),
    }
}

/// What the words behind the first say.
///
/// # Errors
///
/// The first offence, or `OutOfMemory`, which only a `store` can meet.
#[inline(always)]
pub fn read_verb(alloc: Global, form: VerbForm, words: &mut Words<'_>) -> Result<Verb, LineFault>
    ensures value { GivesOr result words.new (verbs.verb_line form words.old) }
    ensures lawful { IfOk result IsLawfulVerb }
    ensures shared { IfOk result IsOfNode }
    ensures memory { result ≡ Err fault.OutOfMemory → form ≡ form_is.Store }
{
    if let VerbForm::Store = form {
        return store(alloc, words);
    }
    match plain_verb(form, words) {
        Ok(verb) => Ok(verb),
        Err(offence) => Err(offence.into()),
    }
}
