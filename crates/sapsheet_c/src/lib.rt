// The C entry: a quotient from the bytes of two files, by one call and without a heap.
#![tactic(auto)]

ghost use Rattle.std.specs.Prelude.{length};
ghost use Rattle.sapsheet_c.specs.Outcome.{Outcome, Answered};
ghost use Rattle.sapsheet_c.specs.Means.{Means};
ghost use Rattle.sapsheet_c.specs.Parts.{Answers};

use crate::answer::answer_reader;
use modular::f97::F97;
use modular::f12289::F12289;
use refusal::refused::Refused;
use solving::open::open_known;

mod answer;
mod fields;
mod numbers;
pub mod theorem;

fn answer_files(circuit: &[u8], witness: &[u8], answer: &mut [u8]) -> Result<(), Refused>
    ensures { Answers (Means circuit.now witness.now (length answer.old)) answer.old result answer.new }
{
    let reader = open_known(circuit)?;
    // a file names its field by a number
    if reader.header().prime == 97 {
        answer_reader::<F97>(reader, witness, answer)
    } else {
        answer_reader::<F12289>(reader, witness, answer)
    }
}

// Writes the quotient's coefficients to the front of the buffer, each in 8 bytes with the least byte first, and answers 0; or answers
// the number of the refusal and writes nothing. The prime is 97 or 12289, as the constraint file says.
#[unsafe(no_mangle)]
pub extern "C" fn sapsheet_quotient(circuit: &[u8], witness: &[u8], answer: &mut [u8]) -> u32
    ensures { (o : Outcome) × Means circuit.now witness.now (length answer.old) o × Answered o answer.old result answer.new }
{
    // C has numbers alone
    match answer_files(circuit, witness, answer) {
        Ok(()) => 0,
        Err(e) => e.reason.number(),
    }
}
