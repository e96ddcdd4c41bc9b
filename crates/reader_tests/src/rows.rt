//! Tables of tests: a row is a question and, behind ` =>`, its answer.
use paje_lex::Unread;
use std::test::Fail;

/// Adds the rows of a table, each with the answer that is found to its question.
pub fn add_rows<F: FnMut(&mut String, &str) -> Result<(), Fail>>(
    out: &mut String,
    rows: &str,
    mut add_answer: F,
) -> Result<(), Fail>
    requires { F.IsAlwaysCallable add_answer }
{
    for row in rows.lines() {
        if let Some((question, _)) = row.split_once(" =>") {
            out.push_str(question)?;
            out.push_str(" =>")?;
            add_answer(out, question)?;
            out.push_str("\n")?;
        }
    }
    Ok(())
}

/// The reason of a refusal. Want of memory fails the test.
pub fn reason<F: Drop>(unread: Unread<F>) -> Result<F, Fail> {
    match unread {
        Unread::Refused(reason) => Ok(reason),
        Unread::Memory => Err(Fail::from("no memory")),
    }
}
