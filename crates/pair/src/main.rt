// Clears two small rounds and prints them in plain words: what each side can accept and would
// rather have, the list, and the number of turns.
#![tactic(auto)]

mod report;
mod rounds;

fn run(rt: &HostRuntime) -> anyhow::Result<()> {
    report::show(rt, "pair", &rounds::pair()?)?;
    report::show(rt, "rush", &rounds::rush()?)?;
    Ok(())
}

fn main(rt: HostRuntime) -> anyhow::Result<()> {
    run(&rt)
}
