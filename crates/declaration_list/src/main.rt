//! Prints what the built-in packages declare, a line for each declaration: its package, its name and what the name stands for.
#![tactic(auto)]

mod text;

use std::io::Print;
use text::line;
use vv_num::num_decls;
use vv_std::std_decls;

fn main(rt: HostRuntime) -> anyhow::Result<()> {
    let alloc = rt.alloc();
    let mut decls = std_decls(alloc)?;
    decls.append(num_decls(alloc)?)?;
    for decl in decls.as_slice() {
        println!(rt; "{}", line(alloc, decls.as_slice(), decl)?)?;
    }
    Ok(())
}
