//! Lays out the document on standard input by calls on the libraries, and prints the boxes, lines and texts of its tree.
#![tactic(auto)]

use anyhow::{Result, bail};
use lay_context::scratch;
use lay_frag::text_of;
use lay_json::{InputFault, read_run};
use std::io::Read;

fn main(rt: HostRuntime) -> Result<()> {
    let mut bytes = Vec::new(rt.alloc());
    rt.reader().read_to_end(&mut bytes)?;
    let run = match read_run(rt.alloc(), &bytes) {
        Ok(run) => run,
        Err(InputFault::NoMemory) => bail!("out of memory"),
        Err(_) => bail!("the document has a fault"),
    };
    let Ok(tree) = scratch(rt.alloc(), run.doc(), run.face()) else {
        bail!("out of memory")
    };
    let Ok(text) = text_of(rt.alloc(), &tree) else {
        bail!("out of memory")
    };
    print!(rt; "{}", text.as_str())?;
    Ok(())
}
