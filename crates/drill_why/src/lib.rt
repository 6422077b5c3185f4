// The line that tells why a master is awake.
#![tactic(auto)]

ghost use Rattle.std.specs.Prelude.{◌≡◌, ◌++◌};
ghost use Rattle.base_text.specs.Text.{wrote, ascii, decimal};
ghost use Rattle.drill_why.specs.Line.{cause_word, reason_word, why_word, why_line};

use base_text::Writer;
use machine_reason::{Cause, Explained, Reason};

#[tactic(auto, using(base_text::proofs::Appends::writing), unfolding(crate::specs::Line::cause_word))]
fn append_cause(out: &mut Writer<'_>, cause: Cause)
    ensures { out.new ≡ wrote (cause_word cause) out.old }
{
    match cause {
        Cause::New => out.append(b"new"),
        Cause::Refused => out.append(b"refused"),
        Cause::Aged => out.append(b"aged"),
        Cause::Damaged => out.append(b"damaged"),
        Cause::Woken => out.append(b"wake"),
    }
}

#[tactic(auto, using(base_text::proofs::Appends::writing))]
fn append_node(out: &mut Writer<'_>, node: u8, cause: Cause)
    ensures { out.new ≡ wrote (decimal node ++ ascii " " ++ cause_word cause) out.old }
{
    out.decimal(node as u64);
    out.append(b" ");
    append_cause(out, cause);
}

#[tactic(auto, using(base_text::proofs::Appends::writing), unfolding(crate::specs::Line::reason_word))]
fn append_reason(out: &mut Writer<'_>, reason: Reason)
    ensures { out.new ≡ wrote (reason_word reason) out.old }
{
    match reason {
        Reason::Nothing => out.append(b"none"),
        Reason::UnderWay => out.append(b"sleep"),
        Reason::Owed => out.append(b"owed"),
        Reason::Own => out.append(b"own"),
        Reason::Node { node, cause } => append_node(out, node, cause),
        Reason::Profile => out.append(b"profile"),
    }
}

#[tactic(auto, using(base_text::proofs::Appends::writing), unfolding(crate::specs::Line::why_word))]
fn append_word(out: &mut Writer<'_>, explained: Explained)
    ensures { out.new ≡ wrote (why_word explained) out.old }
{
    if explained.refusal == 0 {
        append_reason(out, explained.reason);
    } else {
        out.decimal(u64::from(explained.refusal));
    }
}

// Any number can be told, also one that names no refusal.
#[tactic(auto, using(base_text::proofs::Appends::writing), unfolding(crate::specs::Line::why_line))]
pub fn append_why(out: &mut Writer<'_>, explained: Explained)
    ensures { out.new ≡ wrote (why_line explained) out.old }
{
    out.append(b"why ");
    append_word(out, explained);
    out.append(b"\n");
}
