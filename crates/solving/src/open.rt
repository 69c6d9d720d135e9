// A constraint file over one of the known primes.
ghost use Rattle.constraints.specs.Reader.{Checked, ReadsCircuit};
ghost use Rattle.solving.specs.Primes.{prime_of};

use constraints::reader::{RowReader, open};
use refusal::reason::Refusal;
use refusal::refused::Refused;

// Opens a circuit over 97 or, where it is over another prime, over 12289.
pub fn open_known(circuit: &[u8]) -> Result<RowReader<'_>, Refused>
    ensures verdict { Checked circuit.now (prime_of circuit.now) result }
    ensures circuit { ReadsCircuit circuit.now (prime_of circuit.now) result }
{
    match open(circuit, 97) {
        Err(e) if e.reason == Refusal::OtherPrime => open(circuit, 12289),
        told => told,
    }
}
