// Shows a set in words.
#![tactic(auto)]

fn main(rt: HostRuntime) {
    program_files::with_set(
        &rt,
        b"show",
        b"Prints a release set in words, a line each; of a refused set its number and the broken rule.\n",
        |set| {
            // The words of the longest set take about a sixth of it.
            let mut out = program_files::text_room();
            let length = set_text::show(set, &mut out);
            program_files::print(&rt, b"show", true, &out[..length]);
        },
    );
}
