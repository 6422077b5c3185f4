// A release set in words.
#![tactic(auto)]

ghost use Rattle.std.specs.Prelude.{◌≡◌, ◌≤◌, length};
ghost use Rattle.base_refusals.specs.Numbers.{number};
ghost use Rattle.base_text.specs.Text.{wrote, Shown, Counts};
ghost use Rattle.set_plan.specs.Limits.{max_nodes, max_rows};
ghost use Rattle.set_reader.specs.Read.{read_told, read_set};
ghost use Rattle.set_text.specs.Show.{time_line, wake_up_times_text, times_text, method_text, class_and_method_text, node_line, nodes_text, publisher_text, count_text, length_text, length_and_count_text, row_line, rows_text, revision_line, profile_line, plan_text, content_rule_text, rule_text, refusal_text, result_text};

use base_refusals::Refusal;
use base_text::Writer;
use set_plan::{NodeEntry, Plan, Row, Times};

#[tactic(auto, using(base_text::proofs::Appends::writing), unfolding(crate::specs::Show::time_line))]
fn append_time(out: &mut Writer<'_>, label: &[u8], ticks: u16)
    ensures { out.new ≡ wrote (time_line label.now ticks) out.old }
{
    out.append(label);
    out.append(b", ticks: ");
    out.decimal(ticks as u64);
    out.append(b"\n");
}

fn append_wake_up_times(out: &mut Writer<'_>, t: Times)
    ensures { out.new ≡ wrote (wake_up_times_text t) out.old }
{
    append_time(out, b"R wake-up recovery", t.recovery);
    append_time(out, b"P wake-up space", t.space);
    append_time(out, b"C clock start", t.start);
}

fn append_times(out: &mut Writer<'_>, t: Times)
    ensures { out.new ≡ wrote (times_text t) out.old }
{
    append_time(out, b"W window", t.window);
    append_time(out, b"D clock stop", t.stop);
    append_time(out, b"S node sleep", t.sleep);
    append_time(out, b"E quiet limit", t.quiet);
    append_wake_up_times(out, t);
}

#[tactic(auto, unfolding(crate::specs::Show::method_text))]
fn append_method(out: &mut Writer<'_>, method: u8)
    ensures { out.new ≡ wrote (method_text method) out.old }
{
    if method == 0 {
        out.append(b"event-triggered");
    } else {
        out.append(b"polled");
    }
}

fn append_class_and_method(out: &mut Writer<'_>, class: u8, method: u8)
    ensures { out.new ≡ wrote (class_and_method_text class method) out.old }
{
    out.append(b" hex, diagnostic class ");
    out.decimal(class as u64);
    out.append(b", ");
    append_method(out, method);
    out.append(b"\n");
}

#[tactic(auto, using(base_text::proofs::Appends::writing), unfolding(crate::specs::Show::node_line))]
fn append_node(out: &mut Writer<'_>, k: usize, e: NodeEntry)
    ensures { out.new ≡ wrote (node_line k e) out.old }
{
    out.append(b"node ");
    out.decimal(k as u64);
    out.append(b": address ");
    out.hex(e.address);
    append_class_and_method(out, e.class, e.method);
}

#[tactic(auto, using(base_text::proofs::Appends::writing, crate::proofs::Lines::lines))]
fn append_nodes(out: &mut Writer<'_>, nodes: &[NodeEntry])
    ensures { out.new ≡ wrote (nodes_text nodes.now (length nodes.now)) out.old }
{
    for (k, e) in nodes.iter().enumerate() {
        append_node(out, k, *e);
    }
}

#[tactic(auto, using(base_text::proofs::Appends::writing), unfolding(crate::specs::Show::publisher_text))]
fn append_publisher(out: &mut Writer<'_>, publisher: u8)
    ensures { out.new ≡ wrote (publisher_text publisher) out.old }
{
    if publisher == 255 {
        out.append(b"master");
    } else {
        out.append(b"node ");
        out.decimal(publisher as u64);
    }
}

#[tactic(auto, unfolding(crate::specs::Show::count_text))]
fn append_count(out: &mut Writer<'_>, counted: bool)
    ensures { out.new ≡ wrote (count_text counted) out.old }
{
    if counted {
        out.append(b"with sequence count");
    } else {
        out.append(b"without sequence count");
    }
}

#[tactic(auto, unfolding(crate::specs::Show::length_text))]
fn append_length(out: &mut Writer<'_>, variable: bool)
    ensures { out.new ≡ wrote (length_text variable) out.old }
{
    if variable {
        out.append(b", length up to ");
    } else {
        out.append(b", length ");
    }
}

#[tactic(auto, using(base_text::proofs::Appends::writing), unfolding(crate::specs::Show::length_and_count_text))]
fn append_length_and_count(out: &mut Writer<'_>, row: Row)
    ensures { out.new ≡ wrote (length_and_count_text row) out.old }
{
    append_length(out, row.is_variable());
    out.decimal(row.length as u64);
    out.append(b", ");
    append_count(out, row.is_counted());
    out.append(b"\n");
}

fn append_row(out: &mut Writer<'_>, row: Row)
    ensures { out.new ≡ wrote (row_line row) out.old }
{
    out.append(b"ReqId ");
    out.decimal(row.reqid as u64);
    out.append(b": publisher ");
    append_publisher(out, row.publisher);
    append_length_and_count(out, row);
}

// Beside append_nodes: one function that takes a line's function would need a promise about it, longer than this loop.
#[tactic(auto, using(base_text::proofs::Appends::writing, crate::proofs::Lines::lines))]
fn append_rows(out: &mut Writer<'_>, rows: &[Row])
    ensures { out.new ≡ wrote (rows_text rows.now (length rows.now)) out.old }
{
    for row in rows {
        append_row(out, *row);
    }
}

fn append_revision(out: &mut Writer<'_>, revision: u16)
    ensures { out.new ≡ wrote (revision_line revision) out.old }
{
    out.append(b"revision ");
    out.decimal(revision as u64);
    out.append(b"\n");
}

// A line for panels that never sleep; none for others.
#[tactic(auto, using(base_text::proofs::Appends::writing), unfolding(crate::specs::Show::profile_line))]
fn append_profile(out: &mut Writer<'_>, sleeps: bool)
    ensures { out.new ≡ wrote (profile_line sleeps) out.old }
{
    if !sleeps {
        out.append(b"profile: the ignition cuts the power, no sleep\n");
    }
}

#[tactic(auto, using(base_text::proofs::Appends::writing, crate::proofs::Lines::fronts), unfolding(crate::specs::Show::plan_text))]
fn append_plan(out: &mut Writer<'_>, p: Plan)
    requires { (p.nodecount ≤ max_nodes) × (p.rowcount ≤ max_rows) }
    ensures { out.new ≡ wrote (plan_text p) out.old }
{
    append_revision(out, p.revision);
    append_profile(out, p.sleeps());
    append_times(out, p.times);
    append_nodes(out, &p.nodes[..p.nodecount as usize]);
    append_rows(out, &p.rows[..p.rowcount as usize]);
}

#[tactic(auto, unfolding(crate::specs::Show::content_rule_text))]
fn append_content_rule(out: &mut Writer<'_>, number: u8)
    ensures { out.new ≡ wrote (content_rule_text number) out.old }
{
    match number {
        5 => out.append(b"a time breaks its rule"),
        6 => out.append(b"the number of nodes or a node entry breaks its rule"),
        7 => out.append(b"a row count or a row breaks its rule"),
        8 => out.append(b"a node publishes nothing"),
        _ => out.append(b"filler is not zero"),
    }
}

#[tactic(auto, unfolding(crate::specs::Show::rule_text))]
fn append_rule(out: &mut Writer<'_>, number: u8)
    ensures { out.new ≡ wrote (rule_text number) out.old }
{
    match number {
        1 => out.append(b"the length is not 1,024 or 1,536 bytes"),
        2 => out.append(b"a block's check differs"),
        3 => out.append(b"byte 0 or 1 of a block or the profile is wrong"),
        4 => out.append(b"the revision is 0, or blocks differ in it"),
        _ => append_content_rule(out, number),
    }
}

#[tactic(auto, using(base_text::proofs::Appends::writing), unfolding(crate::specs::Show::refusal_text))]
fn append_refusal(out: &mut Writer<'_>, refusal: Refusal)
    ensures { out.new ≡ wrote (refusal_text (number refusal)) out.old }
{
    let number = refusal.number();
    out.append(b"set ");
    out.decimal(u64::from(number));
    out.append(b"\n");
    append_rule(out, number);
    out.append(b"\n");
}

#[tactic(auto, unfolding(crate::specs::Show::result_text))]
fn append_result(out: &mut Writer<'_>, read: Result<Plan, Refusal>)
    requires { ((read_told read).plan.nodecount ≤ max_nodes) × ((read_told read).plan.rowcount ≤ max_rows) }
    ensures { out.new ≡ wrote (result_text (read_told read)) out.old }
{
    match read {
        Ok(plan) => append_plan(out, plan),
        Err(refusal) => append_refusal(out, refusal),
    }
}

// Stores the words for a set's bytes at the front of a buffer, as far as it has room, and gives how many bytes they take there.
#[tactic(auto, unfolding(base_text::specs::Text::wrote))]
pub fn show(bytes: &[u8], buffer: &mut [u8]) -> usize
    ensures shown { Shown (result_text (read_set bytes.now)) buffer.old buffer.new result }
    ensures counts { Counts result buffer.new }
{
    let mut out = Writer::new(buffer);
    append_result(&mut out, set_reader::read(bytes));
    out.length()
}
