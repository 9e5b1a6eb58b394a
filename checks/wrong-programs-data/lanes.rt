//! Tries what `call_rows` tries first of lanes, over rings and over rows of cells.
#![tactic(auto)]

mod lanes;

use anyhow::{Result, ensure};

fn main(rt: HostRuntime) -> Result<()> {
    let holds = lanes::fill_and_empty(rt.alloc())?;
    ensure!(holds, "this does not hold: lanes fill and empty");
    println!(rt; "lanes fill and empty")?;
    Ok(())
}
