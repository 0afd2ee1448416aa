//! The inner steps of a trace, by the words behind the first two.

ghost use Rattle.std.specs.Prelude.{◌≡◌};
ghost use Rattle.run_traces.specs.Lines as lines;
ghost use Rattle.run_traces.specs.declared.trace_audit.lines.StepForm.TheVariants as form_is;
ghost use Rattle.script_lang.specs.Words.{Gives};

use crate::trace_audit::forms::why_of;
use crate::trace_audit::lines::StepForm;
use packetless_machine::MachineStep;
use script_lang::{LineWhy, Offence, Words};

/// `run` O n
#[tactic(auto, unfolding(crate::specs::Lines::inner_step))]
fn run(words: &mut Words<'_>) -> Result<MachineStep, Offence>
    ensures { Gives result words.new (lines.inner_step form_is.Run words.old) }
{
    let q = words.object()?;
    let n = words.short()?;
    Ok(MachineStep::Run { q, n })
}

/// `land` O o
#[tactic(auto, unfolding(crate::specs::Lines::inner_step))]
fn land(words: &mut Words<'_>) -> Result<MachineStep, Offence>
    ensures { Gives result words.new (lines.inner_step form_is.Land words.old) }
{
    let q = words.object()?;
    let o = words.short()?;
    Ok(MachineStep::Land { q, o })
}

/// `known` O m
#[tactic(auto, unfolding(crate::specs::Lines::inner_step))]
fn known(words: &mut Words<'_>) -> Result<MachineStep, Offence>
    ensures { Gives result words.new (lines.inner_step form_is.Known words.old) }
{
    let q = words.object()?;
    let m = words.short()?;
    Ok(MachineStep::Known { q, m })
}

/// `refuse` O why
#[tactic(auto, unfolding(crate::specs::Lines::refuse_step))]
fn refuse(words: &mut Words<'_>) -> Result<MachineStep, Offence>
    ensures { Gives result words.new (lines.refuse_step words.old) }
{
    let q = words.object()?;
    let word = words.word()?;
    let why = why_of(word.text).ok_or(word.bad(LineWhy::BadOption))?;
    Ok(MachineStep::Refuse { q, why })
}

/// `offer` O request offset length
#[tactic(auto, unfolding(crate::specs::Lines::offer_step))]
fn offer(words: &mut Words<'_>) -> Result<MachineStep, Offence>
    ensures { Gives result words.new (lines.offer_step words.old) }
{
    let q = words.object()?;
    let i = words.short()?;
    let off = words.short()?;
    let n = words.short()?;
    Ok(MachineStep::Offer { q, i, off, n })
}

/// What the words behind the step's say. Errors: the first offence.
#[tactic(auto, unfolding(crate::specs::Lines::inner_step))]
pub fn inner_step(form: StepForm, words: &mut Words<'_>) -> Result<MachineStep, Offence>
    ensures { Gives result words.new (lines.inner_step form words.old) }
{
    match form {
        StepForm::Run => run(words),
        StepForm::Land => land(words),
        StepForm::Known => known(words),
        StepForm::Refuse => refuse(words),
        StepForm::Offer => offer(words),
        StepForm::Atom => Ok(MachineStep::Atom { q: words.object()? }),
        StepForm::ReadTurn => Ok(MachineStep::ReadTurn { q: words.object()? }),
        StepForm::Dry => Ok(MachineStep::Dry { q: words.object()? }),
        StepForm::Tell => Ok(MachineStep::Tell { q: words.object()? }),
        StepForm::Expire => Ok(MachineStep::Expire { q: words.object()? }),
        StepForm::Wait => Ok(MachineStep::Wait { q: words.object()? }),
        StepForm::Bounce => Ok(MachineStep::Bounce { q: words.object()? }),
    }
}
