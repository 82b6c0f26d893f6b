#![tactic(auto)]
// The examples of opening a task: what is refused, with which number and at which place, and what is accepted.
mod accepted;
mod example;
mod file_reading;
mod files;
mod opening;
mod too_long;
mod too_many_waiting;
mod trying;
mod variable_outside;
mod word_missing;
mod wrong_operand;
mod wrong_width;
mod wrong_word;

use samples::table::Table;
use std::io;
use trying::{all_refused, all_true};
use words::fault::Refusal;

fn wrong_words(table: &mut Table<'_>) -> io::Result<()> {
    all_refused(table, Refusal::WrongWord, &wrong_word::UNUSED)?;
    all_refused(table, Refusal::WrongWord, &wrong_word::OUT_OF_TURN)?;
    all_refused(table, Refusal::WrongWord, &wrong_word::EFFECTS)?;
    all_refused(table, Refusal::WrongWord, &wrong_word::LOADS)?;
    all_refused(table, Refusal::WrongWord, &wrong_word::NOT_RISING)?;
    all_refused(table, Refusal::WrongWord, &wrong_word::LONG)
}

fn variables_and_values(table: &mut Table<'_>) -> io::Result<()> {
    all_refused(table, Refusal::VariableOutside, &variable_outside::SHORT)?;
    all_refused(table, Refusal::VariableOutside, &variable_outside::LONG)?;
    all_refused(table, Refusal::WrongOperand, &wrong_operand::OPERANDS)?;
    all_refused(table, Refusal::WrongOperand, &wrong_operand::LEFT_OVER)?;
    all_refused(table, Refusal::WrongOperand, &wrong_operand::LONG)?;
    all_refused(table, Refusal::TooManyWaiting, &too_many_waiting::LONG)
}

fn lengths(table: &mut Table<'_>) -> io::Result<()> {
    all_refused(table, Refusal::TooLong, &too_long::SHORT)?;
    all_refused(table, Refusal::TooLong, &too_long::PARTS)?;
    all_refused(table, Refusal::TooLong, &too_long::OPERATORS)?;
    all_refused(table, Refusal::TooLong, &too_long::WORDS)?;
    all_refused(table, Refusal::WordMissing, &word_missing::SHORT)?;
    all_refused(table, Refusal::WordMissing, &word_missing::LONG)?;
    all_refused(table, Refusal::WrongWidth, &wrong_width::SHORT)
}

fn opened(table: &mut Table<'_>) -> io::Result<()> {
    table.all(&accepted::HEADS)?;
    all_true(table)?;
    table.all(&accepted::WAITING)?;
    table.all(&accepted::LENGTHS)
}

fn files_and_states(table: &mut Table<'_>) -> io::Result<()> {
    table.all(&files::TASKS)?;
    table.all(&files::PLANS)?;
    table.all(&wrong_width::STATES)
}

fn run(rt: &HostRuntime) -> anyhow::Result<()> {
    let mut table = Table::new(rt);
    wrong_words(&mut table)?;
    variables_and_values(&mut table)?;
    lengths(&mut table)?;
    opened(&mut table)?;
    files_and_states(&mut table)?;
    table.end()?;
    Ok(())
}

fn main(rt: HostRuntime) -> anyhow::Result<()> {
    run(&rt)
}
