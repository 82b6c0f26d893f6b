// The lines of small files, worked out from the rules by hand.
use running::line::verdict_line;
use std::process::Abort;
use std::test::Fail;
use words::file::{FileKind, bytes_from_words};

// Three variables: 0 clamped, 1 probe out, 2 part set. Variable 1 is true at the start; the goal is 2 and not 0.
// Operator 0 turns 0 over; operator 1 needs not 1, and sets 2 when 0; operator 2 clears 1.
static CELL: [u32; 29] = [
    0xC000_0003,
    0xD000_0001,
    0xE000_0004,
    0x3000_0002,
    0x3000_0000,
    0x4000_0000,
    0x5000_0000,
    0xE000_0001,
    0x1000_0000,
    0xE000_0008,
    0x3000_0000,
    0x9000_0000,
    0xB000_0000,
    0x3000_0000,
    0x4000_0000,
    0x8000_0000,
    0xB000_0000,
    0xA000_0000,
    0xE000_0002,
    0x3000_0001,
    0x4000_0000,
    0xE000_0003,
    0x3000_0000,
    0x8000_0002,
    0xB000_0000,
    0xE000_0001,
    0x1000_0000,
    0xE000_0001,
    0x9000_0001,
];

// Two variables, none true at the start; the goal is FALSE or 1. Operator 0 sets 1 and clears 1 together;
// operator 1 sets 0 and 1.
static CLASH: [u32; 17] = [
    0xC000_0002,
    0xE000_0003,
    0x2000_0000,
    0x3000_0001,
    0x6000_0000,
    0xE000_0001,
    0x1000_0000,
    0xE000_0003,
    0x8000_0001,
    0x9000_0001,
    0xA000_0000,
    0xE000_0001,
    0x1000_0000,
    0xE000_0003,
    0x8000_0000,
    0x8000_0001,
    0xA000_0000,
];

fn tells(
    rt: &(impl Abort + AllocGlobal),
    task: &[u32],
    plan: &[u32],
    line: &[u8],
) -> Result<(), Fail> {
    let task_file = bytes_from_words(rt.alloc(), FileKind::Task, task)?;
    let plan_file = bytes_from_words(rt.alloc(), FileKind::Plan, plan)?;
    let told = verdict_line(rt.alloc(), &task_file, &plan_file)?;
    assert!(rt; told.as_slice() == line);
    Ok(())
}

#[test]
fn the_cell(rt: HostRuntime) -> Result<(), Fail> {
    tells(&rt, &CELL, &[2, 0, 1, 0], b"ACCEPT 4 4 0000000000000004\n")?;
    tells(&rt, &CELL, &[0, 1, 0], b"REFUSE 10 1 19\n")?;
    tells(&rt, &CELL, &[], b"REFUSE 15 0 3\n")?;
    tells(&rt, &CELL, &[2, 3], b"REFUSE 9 1 0\n")?;
    tells(&rt, &CELL, &[2, 0, 1], b"REFUSE 15 3 3\n")
}

#[test]
fn set_and_cleared(rt: HostRuntime) -> Result<(), Fail> {
    tells(&rt, &CLASH, &[0], b"REFUSE 11 0 9\n")?;
    tells(&rt, &CLASH, &[1, 0], b"REFUSE 11 1 9\n")?;
    tells(&rt, &CLASH, &[1, 1], b"ACCEPT 2 2 0000000000000003\n")
}

#[test]
fn files_at_fault(rt: HostRuntime) -> Result<(), Fail> {
    let none = verdict_line(rt.alloc(), b"", b"")?;
    assert!(rt; none.as_slice() == b"REFUSE 7 0 0\n".as_slice());
    let loose_task = verdict_line(rt.alloc(), b"12345", b"1")?;
    assert!(rt; loose_task.as_slice() == b"REFUSE 1 0 1\n".as_slice());
    let cell = bytes_from_words(rt.alloc(), FileKind::Task, &CELL)?;
    let loose_plan = verdict_line(rt.alloc(), &cell, b"123456789")?;
    assert!(rt; loose_plan.as_slice() == b"REFUSE 1 0 2\n".as_slice());
    Ok(())
}
