//! What holds of the printed words.

ghost use Rattle.std.specs.Prelude.{◌≡◌};
ghost use Rattle.rdma_types.specs.declared.answers.Answer.{Answer};
ghost use Rattle.rdma_types.specs.declared.answers.Refusal.{Refusal};
ghost use Rattle.rdma_types.specs.declared.answers.ExpiryIgnored.{ExpiryIgnored};
ghost use Rattle.rdma_types.specs.declared.answers.UnfinishedReason.{UnfinishedReason};
ghost use Rattle.rdma_types.specs.declared.answers.RefusalReason.{RefusalReason};
ghost use Rattle.rdma_types.specs.declared.answers.DropReason.{DropReason};
ghost use Rattle.rdma_types.specs.declared.requests.WcKind.{WcKind};
ghost use Rattle.rdma_types.specs.declared.requests.WcStatus.{WcStatus};
ghost use Rattle.rdma_types.specs.declared.answers.ArrivalEffect.{ArrivalEffect};
ghost use Rattle.script_lang.specs.Printed as text;

/// Each refusal, reason, kind and status, and each thing that a datagram may do, has a word of its own, so a reader of
/// the answers can tell them apart.
pub fn each_has_a_word_of_its_own()
    ensures refusals { (x y : Refusal) → text.refusal_text x ≡ text.refusal_text y → x ≡ y }
    ensures not_counted { (x y : ExpiryIgnored) → text.not_why_text x ≡ text.not_why_text y
        → x ≡ y }
    ensures left { (x y : UnfinishedReason) → text.left_text x ≡ text.left_text y → x ≡ y }
    ensures refused { (x y : RefusalReason) → text.why_text x ≡ text.why_text y → x ≡ y }
    ensures silent { (x y : DropReason) → text.silent_text x ≡ text.silent_text y → x ≡ y }
    ensures kinds { (x y : WcKind) → text.kind_text x ≡ text.kind_text y → x ≡ y }
    ensures statuses { (x y : WcStatus) → text.status_number x ≡ text.status_number y → x ≡ y }
    ensures took { (x y : ArrivalEffect) → text.took_text x ≡ text.took_text y → x ≡ y }
{}

/// The text of each answer is whole lines: it ends with a newline.
pub fn answers_are_whole_lines()
    ensures { (a : Answer) → text.IsWhole (text.printed a) }
{}
