#![tactic(auto)]
// The lines that tell the verdict on a task's file and a plan's file, as bytes with their line end.
ghost use Rattle.std.specs.Prelude.{◌≡◌, false, is_ok, IfOk};
ghost use Rattle.words.specs.declared.file.FileError.TheVariants.{Refused, NoMemory};
ghost use Rattle.lines.specs.Lines.{accept_bytes, refuse_bytes, error_bytes};

use std::alloc::{AllocError, Global};
use words::fault::Fault;
use words::file::FileError;

// The line of an accepted plan: its steps, its changes, and the state at its end as 16 hexadecimal digits.
pub fn accept_line(heap: Global, steps: u32, changes: u32, bits: u64) -> Result<Vec<u8>, AllocError>
    ensures { IfOk result (λ line. line.items ≡ accept_bytes steps changes bits) }
{
    let line = format!(in heap; "ACCEPT {steps} {changes} {bits:016x}\n")?;
    Ok(line.into_bytes())
}

// The line of a refusal: its number, its step and its place.
pub fn refuse_line(heap: Global, fault: Fault) -> Result<Vec<u8>, AllocError>
    ensures { IfOk result (λ line. line.items ≡ refuse_bytes fault) }
{
    let number = fault.refusal.number();
    let step = fault.step;
    let place = fault.place;
    let line = format!(in heap; "REFUSE {number} {step} {place}\n")?;
    Ok(line.into_bytes())
}

// The line of a refusal; want of memory has none.
pub fn error_line(heap: Global, error: FileError) -> Result<Vec<u8>, AllocError>
    ensures bytes { IfOk result (λ line. line.items ≡ error_bytes error) }
    ensures told { elim error [ Refused fault ↦ IfOk result (λ line. line.items ≡ refuse_bytes fault) | NoMemory ↦ is_ok result ≡ false ] }
{
    match error {
        FileError::Refused(fault) => refuse_line(heap, fault),
        FileError::NoMemory => Err(AllocError),
    }
}

#[cfg(test)]
mod tests {
    use super::*;
    use std::test::Fail;
    use words::fault::Refusal;

    // A plan of the cell, and one that is refused at its second step.
    #[test]
    fn lines_are_made(rt: HostRuntime) -> Result<(), Fail> {
        let accepted = accept_line(rt.alloc(), 4, 4, 4)?;
        assert!(rt; accepted.as_slice() == b"ACCEPT 4 4 0000000000000004\n".as_slice());
        let fault = Fault::run(Refusal::PreconditionFalse, 1, 19);
        let refused = refuse_line(rt.alloc(), fault)?;
        assert!(rt; refused.as_slice() == b"REFUSE 10 1 19\n".as_slice());
        let of_error = error_line(rt.alloc(), FileError::Refused(fault))?;
        assert!(rt; of_error.as_slice() == b"REFUSE 10 1 19\n".as_slice());
        Ok(())
    }
}
