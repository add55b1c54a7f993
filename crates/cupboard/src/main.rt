// What the library can do so far, done step by step and printed: a Reed-Solomon word is spoiled and put right, or refused; and
// a small plane is drawn.
#![tactic(auto)]

mod correction;
mod picture;

fn run(rt: &impl Print) -> anyhow::Result<()> {
    correction::run(rt)?;
    picture::run(rt)
}

fn main(rt: HostRuntime) -> anyhow::Result<()> {
    run(&rt)
}
