//! The first words of lines.

ghost use Rattle.std.specs.Prelude.{◌≡◌};
ghost use Rattle.std.specs.Str.{bytes_eq};
ghost use Rattle.script_lang.specs.Verbs as verbs;
ghost use Rattle.script_lang.specs.Lines as lines;

/// The lines of verbs that scripts of a world and of a node share.
#[derive(Clone, Copy)]
pub enum VerbForm {
    Domain,
    Region,
    Cq,
    Qp,
    Drop,
    Store,
    Load,
    Write,
    Send,
    Read,
    CompareSwap,
    FetchAdd,
    Recv,
    Poll,
}

/// The lines of a script of a world.
#[derive(Clone, Copy)]
pub enum Form {
    Verb(VerbForm),
    Device,
    Context,
    Connect,
    Go,
    Deliver,
    Lose,
    Wire,
    Expire,
    Rnr,
    Stop,
    Restore,
    Release,
    Dump,
    Settle,
}

/// The lines of a script of a node.
#[derive(Clone, Copy)]
pub enum NodeForm {
    Verb(VerbForm),
    Context,
    Link,
    Go,
    Expire,
    Rnr,
    Stop,
    Restore,
    Release,
    Serve,
}

#[inline(always)]
fn spells(word: &[u8], text: &[u8]) -> bool
    ensures { result ≡ bytes_eq word.now text.now }
{
    word == text
}

/// The verb that a first word names.
#[tactic(auto, unfolding(crate::specs::Verbs::verb_form))]
#[inline(always)]
pub fn verb_form_of(word: &[u8]) -> Option<VerbForm>
    ensures { result ≡ verbs.verb_form word.now }
{
    let form = match word {
        _ if spells(word, b"domain") => VerbForm::Domain,
        _ if spells(word, b"region") => VerbForm::Region,
        _ if spells(word, b"cq") => VerbForm::Cq,
        _ if spells(word, b"qp") => VerbForm::Qp,
        _ if spells(word, b"drop") => VerbForm::Drop,
        _ if spells(word, b"store") => VerbForm::Store,
        _ if spells(word, b"load") => VerbForm::Load,
        _ if spells(word, b"write") => VerbForm::Write,
        _ if spells(word, b"send") => VerbForm::Send,
        _ if spells(word, b"read") => VerbForm::Read,
        _ if spells(word, b"cas") => VerbForm::CompareSwap,
        _ if spells(word, b"add") => VerbForm::FetchAdd,
        _ if spells(word, b"recv") => VerbForm::Recv,
        _ if spells(word, b"poll") => VerbForm::Poll,
        _ => return None,
    };
    Some(form)
}

/// The line of a script of a world that a first word names.
#[tactic(auto, unfolding(crate::specs::Lines::form_of))]
pub fn form_of(word: &[u8]) -> Option<Form>
    ensures { result ≡ lines.form_of word.now }
{
    if let Some(verb) = verb_form_of(word) {
        return Some(Form::Verb(verb));
    }
    let form = match word {
        _ if spells(word, b"device") => Form::Device,
        _ if spells(word, b"context") => Form::Context,
        _ if spells(word, b"connect") => Form::Connect,
        _ if spells(word, b"go") => Form::Go,
        _ if spells(word, b"deliver") => Form::Deliver,
        _ if spells(word, b"lose") => Form::Lose,
        _ if spells(word, b"wire") => Form::Wire,
        _ if spells(word, b"expire") => Form::Expire,
        _ if spells(word, b"rnr") => Form::Rnr,
        _ if spells(word, b"stop") => Form::Stop,
        _ if spells(word, b"restore") => Form::Restore,
        _ if spells(word, b"release") => Form::Release,
        _ if spells(word, b"dump") => Form::Dump,
        _ if spells(word, b"settle") => Form::Settle,
        _ => return None,
    };
    Some(form)
}

/// The line of a script of a node that a first word names.
#[tactic(auto, unfolding(crate::specs::Lines::node_form_of))]
pub fn node_form_of(word: &[u8]) -> Option<NodeForm>
    ensures { result ≡ lines.node_form_of word.now }
{
    if let Some(verb) = verb_form_of(word) {
        return Some(NodeForm::Verb(verb));
    }
    let form = match word {
        _ if spells(word, b"context") => NodeForm::Context,
        _ if spells(word, b"link") => NodeForm::Link,
        _ if spells(word, b"go") => NodeForm::Go,
        _ if spells(word, b"expire") => NodeForm::Expire,
        _ if spells(word, b"rnr") => NodeForm::Rnr,
        _ if spells(word, b"stop") => NodeForm::Stop,
        _ if spells(word, b"restore") => NodeForm::Restore,
        _ if spells(word, b"release") => NodeForm::Release,
        _ if spells(word, b"serve") => NodeForm::Serve,
        _ => return None,
    };
    Some(form)
}
