// sapsheet: reads a constraint file and an assignment file, makes one call and prints what it says.
#![tactic(auto)]

use report::text::{TEXT_ROOM, text};
use std::alloc::Global;
use std::io::Write;
use std::{env, fs, io};

// The bytes of the file that an argument names, or of this one of the working directory; none where it cannot be read.
fn bytes_of(rt: &HostRuntime, argument: Option<String>, name: &str) -> Vec<u8> {
    let path = argument.as_deref().unwrap_or(name);
    fs::read(rt, path).unwrap_or_else(|_| Vec::new(rt.alloc()))
}

fn print_text(rt: &HostRuntime, circuit: &[u8], witness: &[u8]) -> io::Result<()> {
    let mut out = [0; TEXT_ROOM];
    // a buffer of this size is never too short
    let size = text(circuit, witness, &mut out).unwrap();
    rt.stdout().write_all(&out[..size])
}

// The two files of the working directory, or those whose paths are given.
fn main(rt: HostRuntime) -> io::Result<()> {
    let mut args = env::args(&rt)?.skip(1);
    let circuit = bytes_of(&rt, args.next(), "circuit.r1cs");
    let witness = bytes_of(&rt, args.next(), "witness.wtns");
    print_text(&rt, &circuit, &witness)
}
