// Follows a script of calls on piles of pictures, and prints what each answers. tools/piles.py has the lines of a script.
#![tactic(auto)]

mod bench;
mod layers;
mod pile;
mod script;

use bench::Bench;
use pile::{Pile, Samples};
use script::Command;
use std::io::Read;

fn main(rt: HostRuntime) -> anyhow::Result<()> {
    let mut text = String::new(rt.alloc());
    rt.stdin().read_to_string(&mut text)?;
    let mut bench = Bench::new(&rt);
    // Before the first picture: a pile of no column and no byte.
    let mut pile = Pile::new(0, Samples::Bytes(Vec::new(rt.alloc())));
    for line in text.lines() {
        let Some(command) = script::read(rt.alloc(), line)? else {
            continue;
        };
        match command {
            Command::Case => {
                bench.clear();
                println!(rt; "case")?;
            }
            Command::Start { kind, given } => pile.start(rt.alloc(), kind, given.as_slice())?,
            Command::Put(layer) => pile.put(layer)?,
            Command::Clip => pile.clip(&rt)?,
            Command::Call(call) => pile.call(&mut bench, call)?,
        }
    }
    Ok(())
}
