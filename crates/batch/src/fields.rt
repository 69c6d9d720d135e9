// What is answered over a field, which the case names by its prime and how often it is doubled.
use crate::case::{Case, Malformed};
use crate::kind::Question;
use crate::{assignment, program, survey, values};
use field::file_field::FileField;
use modular::f97::F97;
use modular::f12289::F12289;
use quadratic::quadratic::Quadratic;
use std::io;

fn answer_over<F: FileField>(
    rt: &HostRuntime,
    question: Question,
    case: Case<'_>,
) -> io::Result<()> {
    match question {
        Question::Assignment => assignment::answer::<F>(rt, case),
        Question::Survey => survey::answer::<F>(rt, case),
        Question::Values => values::answer::<F>(rt, case),
        Question::Program => program::answer::<F>(rt, case),
    }
}

pub(crate) fn answer(rt: &HostRuntime, question: Question, mut case: Case<'_>) -> io::Result<()> {
    match (case.word()?, case.word()?) {
        (97, 0) => answer_over::<F97>(rt, question, case),
        (97, 1) => answer_over::<Quadratic<F97>>(rt, question, case),
        (97, 2) => answer_over::<Quadratic<Quadratic<F97>>>(rt, question, case),
        (12289, 0) => answer_over::<F12289>(rt, question, case),
        (12289, 1) => answer_over::<Quadratic<F12289>>(rt, question, case),
        _ => Err(Malformed)?,
    }
}
