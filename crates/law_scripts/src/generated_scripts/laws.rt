//! What holds of the lines of each generated script.

ghost use Rattle.std.specs.Prelude.{◌≡◌, ℕ, Some, None};
ghost use Rattle.program_rules.specs.Commands.{Bulk};
ghost use Rattle.program_rules.specs.Headline.{IsStopped, IsStoppedInBulk};
ghost use Rattle.program_rules.specs.Runs.{Run, command};
ghost use Rattle.program_rules.specs.Mixes.{IsMix};
ghost use Rattle.law_headline.specs.Script.{bad_line};
ghost use Rattle.workload_gen.specs.Plan.{plan};
ghost use Rattle.workload_gen.specs.declared.plan.Mix.{Mix};

use script_lang::what_is_printed_reads_back;

/// No line of a generated script is bad, whatever the seed, for 1 to 8 connections, 1 to 2,000 messages and at most 16 moves. So
/// no run of the program stops at a line of one, and none whose words ask for one stops at a line or a dump: they name such a mix.
pub fn no_generated_line_is_bad()
    ensures good { (seed : ℕ) (mix : Mix) → IsMix mix → bad_line (plan seed mix) ≡ None }
    ensures not_stopped { (r : Run) (seed : ℕ) (mix : Mix) → IsMix mix → IsStoppedInBulk r seed mix
        → ⊥ }
    ensures not_asked { (r : Run) (seed : ℕ) (mix : Mix) → command r ≡ Some (Bulk seed mix)
        → IsStopped r → ⊥ }
{
    what_is_printed_reads_back();
}
