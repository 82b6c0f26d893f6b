#![tactic(auto)]
// The two files of a cell in the working folder: its task and a plan.
use anyhow::anyhow;
use std::fs;
use std::io::ErrorKind;
use std::rt::Files;

// The bytes of the two files.
#[derive(Drop)]
pub struct CellFiles {
    pub task: Vec<u8>,
    pub plan: Vec<u8>,
}

// The bytes of the file; none if there is no such file.
fn file_or_empty(rt: &(impl Files + AllocGlobal), path: &str) -> anyhow::Result<Vec<u8>> {
    match fs::read(rt, path) {
        Ok(bytes) => Ok(bytes),
        Err(e) if e.kind() == ErrorKind::NotFound => Ok(Vec::new(rt.alloc())),
        Err(e) => Err(anyhow!("cannot read {path}: {e}")),
    }
}

// Reads cell.task, then cell.plan. A missing file is empty; one that is there and cannot be read is an error.
pub fn read_cell(rt: &(impl Files + AllocGlobal)) -> anyhow::Result<CellFiles> {
    let task = file_or_empty(rt, "cell.task")?;
    let plan = file_or_empty(rt, "cell.plan")?;
    Ok(CellFiles { task, plan })
}
