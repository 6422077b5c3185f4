// What a program's arguments ask for, and how it says what it takes.
#![tactic(auto)]

ghost use Rattle.std.specs.Prelude.{◌≡◌};
ghost use Rattle.base_text.specs.Text.{wrote, Shown, Counts};
ghost use Rattle.program_arguments.specs.Arguments.{invocation_by_one, invocation_of, usage_text, help_text};

use base_text::Writer;

#[derive(Clone, Copy)]
pub enum Invocation {
    // the set in plan.set
    Default,
    // the set in the file that the argument names
    Named,
    Help,
    // anything else: how the program is called
    Usage,
}

// What one argument asks for. An empty one names no file, and what starts with `-` is an option: `./-` names such a file.
#[tactic(auto, using(base_text::proofs::Equal::pointwise_same))]
fn invocation_by_one(argument: &[u8]) -> Invocation
    ensures { result ≡ invocation_by_one argument.now }
{
    if argument == b"--help".as_slice() {
        return Invocation::Help;
    }
    match argument {
        [] | [b'-', ..] => Invocation::Usage,
        _ => Invocation::Named,
    }
}

// What the arguments ask for, of which the first is the program's own name and the second given.
pub fn invocation_of(count: usize, argument: &[u8]) -> Invocation
    ensures { result ≡ invocation_of count argument.now }
{
    match count {
        0 | 1 => Invocation::Default,
        2 => invocation_by_one(argument),
        _ => Invocation::Usage,
    }
}

fn append_usage(out: &mut Writer<'_>, program: &[u8])
    ensures { out.new ≡ wrote (usage_text program.now) out.old }
{
    out.append(b"usage: ");
    out.append(program);
    out.append(b" [FILE]\n");
}

fn append_help(out: &mut Writer<'_>, program: &[u8], about: &[u8])
    ensures { out.new ≡ wrote (help_text program.now about.now) out.old }
{
    append_usage(out, program);
    out.append(about);
    out.append(b"FILE is the release set, plan.set if none is named.\n");
}

// The line of a wrong call.
#[tactic(auto, unfolding(base_text::specs::Text::wrote))]
pub fn usage(program: &[u8], buffer: &mut [u8]) -> usize
    ensures shown { Shown (usage_text program.now) buffer.old buffer.new result }
    ensures counts { Counts result buffer.new }
{
    let mut out = Writer::new(buffer);
    append_usage(&mut out, program);
    out.length()
}

// That line, what the program does, and what FILE is.
#[tactic(auto, unfolding(base_text::specs::Text::wrote))]
pub fn help(program: &[u8], about: &[u8], buffer: &mut [u8]) -> usize
    ensures shown { Shown (help_text program.now about.now) buffer.old buffer.new result }
    ensures counts { Counts result buffer.new }
{
    let mut out = Writer::new(buffer);
    append_help(&mut out, program, about);
    out.length()
}
