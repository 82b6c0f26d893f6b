// Tries the examples of each kind.
use crate::example::{Answer, ConditionExample, FilesExample, PlanExample, TwoTasks};
use crate::found::{NotAnswered, answer_line, checked, checked_over_two, found_text, has_line};
use crate::valued::{NotValued, valued_in, valued_text};
use crate::words_of::unstarted_words;
use samples::build::{Words, word_bytes};
use samples::table::{Example, Table};
use std::alloc::{AllocError, Global};
use std::io;
use words::fault::Fault;

// Whether the files of the words and the plan have the expected line; a plan that is too long has no file.
fn tells(heap: Global, words: &[u32], plan: &[u32], expected: Answer) -> Result<bool, AllocError> {
    if plan.len() > 4_096 {
        return Ok(true);
    }
    let task_file = word_bytes(heap, words)?;
    let plan_file = word_bytes(heap, plan)?;
    let line = answer_line(heap, expected)?;
    has_line(heap, &task_file, &plan_file, &line)
}

impl<T: Words, P: Words> Example for PlanExample<T, P> {
    fn try_on(&self, table: &mut Table<'_>) -> io::Result<()> {
        let words = self.task.all_words(table.heap())?;
        let plan = self.plan.all_words(table.heap())?;
        let told = tells(table.heap(), &words, &plan, self.expected)?;
        let found = checked(&words, &plan);
        let text = found_text(table.heap(), found)?;
        table.line(self.name, &text, told && found == Ok(self.expected))
    }
}

impl Example for TwoTasks {
    fn try_on(&self, table: &mut Table<'_>) -> io::Result<()> {
        let own = unstarted_words(table.heap(), self.own)?;
        let other = unstarted_words(table.heap(), self.other)?;
        let found = checked_over_two(&own, self.made, &other, self.call);
        let text = found_text(table.heap(), found)?;
        table.line(self.name, &text, found == Ok(self.expected))
    }
}

impl Example for FilesExample {
    fn try_on(&self, table: &mut Table<'_>) -> io::Result<()> {
        let task = self.task.bytes(table.heap())?;
        let plan = self.plan.bytes(table.heap())?;
        let line = format!(in table.heap(); "{}\n", self.line)?;
        let as_expected = has_line(table.heap(), &task, &plan, &line)?;
        let text = if as_expected {
            self.line
        } else {
            "another line"
        };
        table.line(self.name, text, as_expected)
    }
}

impl Example for ConditionExample {
    fn try_on(&self, table: &mut Table<'_>) -> io::Result<()> {
        let words = unstarted_words(table.heap(), self.cell)?;
        let found = valued_in(&words, self.operator, self.literal, self.width);
        let text = valued_text(table.heap(), found)?;
        let expected = self
            .expected
            .map_err(|refusal| NotValued::Refused(Fault::bank(refusal)));
        table.line(self.name, &text, found == expected)
    }
}
