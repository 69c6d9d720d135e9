// Damaged files: each is refused with the number and at the place that the table says, which another reader worked out.
#![tactic(auto)]

use assignments::reader::read;
use constraints::reader::open;
use field::file_field::FileField;
use modular::f97::F97;
use refusal::refused::Refused;

// Damage to a copy of a file: it is cut to a length, and so many bytes from a place on get a value.
#[derive(Clone, Copy)]
struct Damage {
    length: usize,
    place: usize,
    count: usize,
    value: u8,
}

impl Damage {
    // The damaged copy; None where it would have to be longer.
    fn applied(self, copy: &mut [u8]) -> Option<&[u8]> {
        for byte in copy.iter_mut().skip(self.place).take(self.count) {
            *byte = self.value;
        }
        copy.get(..self.length)
    }
}

// The number and the place by which a damaged file is refused, if it is: a number, since that is what the other reader gave.
#[derive(Clone, Copy)]
struct DamagedCircuit {
    damage: Damage,
    refused: Option<(u32, usize)>,
}

// The same of a file that is read into a table with so many places.
#[derive(Clone, Copy)]
struct DamagedAssignment {
    damage: Damage,
    places: usize,
    refused: Option<(u32, usize)>,
}

// A circuit over 97 with 2 rows, and zeros behind its 224 bytes.
#[rattlefmt::skip]
static CIRCUIT: [u8; 240] = [114, 49, 99, 115, 1, 0, 0, 0, 4, 0, 0, 0, 1, 0, 0, 0, 40, 0, 0, 0, 0, 0, 0, 0, 8, 0, 0, 0, 97, 0, 0, 0, 0, 0, 0, 0, 4, 0, 0, 0, 1, 0, 0, 0, 1, 0, 0, 0, 1, 0, 0, 0, 4, 0, 0, 0, 0, 0, 0, 0, 2, 0, 0, 0, 2, 0, 0, 0, 108, 0, 0, 0, 0, 0, 0, 0, 2, 0, 0, 0, 1, 0, 0, 0, 3, 0, 0, 0, 0, 0, 0, 0, 2, 0, 0, 0, 5, 0, 0, 0, 0, 0, 0, 0, 1, 0, 0, 0, 1, 0, 0, 0, 1, 0, 0, 0, 0, 0, 0, 0, 2, 0, 0, 0, 0, 0, 0, 0, 96, 0, 0, 0, 0, 0, 0, 0, 3, 0, 0, 0, 2, 0, 0, 0, 0, 0, 0, 0, 1, 0, 0, 0, 3, 0, 0, 0, 1, 0, 0, 0, 0, 0, 0, 0, 0, 0, 0, 0, 1, 0, 0, 0, 2, 0, 0, 0, 7, 0, 0, 0, 0, 0, 0, 0, 3, 0, 0, 0, 16, 0, 0, 0, 0, 0, 0, 0, 0, 0, 0, 0, 0, 0, 0, 0, 1, 0, 0, 0, 0, 0, 0, 0, 7, 0, 0, 0, 0, 0, 0, 0, 0, 0, 0, 0, 0, 0, 0, 0, 0, 0, 0, 0, 0, 0, 0, 0, 0, 0, 0, 0];

#[rattlefmt::skip]
static CIRCUITS: [DamagedCircuit; 72] = [
    DamagedCircuit { damage: Damage { length: 224, place: 0, count: 0, value: 0 }, refused: None },
    DamagedCircuit { damage: Damage { length: 0, place: 0, count: 0, value: 0 }, refused: Some((8, 0)) },
    DamagedCircuit { damage: Damage { length: 3, place: 0, count: 0, value: 0 }, refused: Some((8, 0)) },
    DamagedCircuit { damage: Damage { length: 224, place: 0, count: 1, value: 119 }, refused: Some((8, 0)) },
    DamagedCircuit { damage: Damage { length: 224, place: 3, count: 1, value: 0 }, refused: Some((8, 0)) },
    DamagedCircuit { damage: Damage { length: 4, place: 0, count: 0, value: 0 }, refused: Some((8, 4)) },
    DamagedCircuit { damage: Damage { length: 7, place: 0, count: 0, value: 0 }, refused: Some((8, 4)) },
    DamagedCircuit { damage: Damage { length: 224, place: 4, count: 1, value: 2 }, refused: Some((8, 4)) },
    DamagedCircuit { damage: Damage { length: 224, place: 7, count: 1, value: 1 }, refused: Some((8, 4)) },
    DamagedCircuit { damage: Damage { length: 8, place: 0, count: 0, value: 0 }, refused: Some((8, 8)) },
    DamagedCircuit { damage: Damage { length: 11, place: 0, count: 0, value: 0 }, refused: Some((8, 8)) },
    DamagedCircuit { damage: Damage { length: 224, place: 8, count: 1, value: 0 }, refused: Some((8, 8)) },
    DamagedCircuit { damage: Damage { length: 224, place: 8, count: 1, value: 1 }, refused: Some((8, 8)) },
    DamagedCircuit { damage: Damage { length: 224, place: 8, count: 1, value: 5 }, refused: Some((8, 224)) },
    DamagedCircuit { damage: Damage { length: 224, place: 11, count: 1, value: 1 }, refused: Some((8, 224)) },
    DamagedCircuit { damage: Damage { length: 235, place: 8, count: 1, value: 5 }, refused: Some((8, 224)) },
    DamagedCircuit { damage: Damage { length: 12, place: 0, count: 0, value: 0 }, refused: Some((8, 12)) },
    DamagedCircuit { damage: Damage { length: 23, place: 0, count: 0, value: 0 }, refused: Some((8, 12)) },
    DamagedCircuit { damage: Damage { length: 24, place: 0, count: 0, value: 0 }, refused: Some((8, 12)) },
    DamagedCircuit { damage: Damage { length: 224, place: 16, count: 8, value: 255 }, refused: Some((8, 12)) },
    DamagedCircuit { damage: Damage { length: 224, place: 23, count: 1, value: 255 }, refused: Some((8, 12)) },
    DamagedCircuit { damage: Damage { length: 224, place: 16, count: 1, value: 250 }, refused: Some((8, 12)) },
    DamagedCircuit { damage: Damage { length: 64, place: 0, count: 0, value: 0 }, refused: Some((8, 64)) },
    DamagedCircuit { damage: Damage { length: 75, place: 0, count: 0, value: 0 }, refused: Some((8, 64)) },
    DamagedCircuit { damage: Damage { length: 76, place: 0, count: 0, value: 0 }, refused: Some((8, 64)) },
    DamagedCircuit { damage: Damage { length: 224, place: 68, count: 8, value: 255 }, refused: Some((8, 64)) },
    DamagedCircuit { damage: Damage { length: 224, place: 75, count: 1, value: 128 }, refused: Some((8, 64)) },
    DamagedCircuit { damage: Damage { length: 187, place: 0, count: 0, value: 0 }, refused: Some((8, 184)) },
    DamagedCircuit { damage: Damage { length: 224, place: 188, count: 8, value: 255 }, refused: Some((8, 184)) },
    DamagedCircuit { damage: Damage { length: 212, place: 0, count: 0, value: 0 }, refused: Some((8, 212)) },
    DamagedCircuit { damage: Damage { length: 223, place: 0, count: 0, value: 0 }, refused: Some((8, 212)) },
    DamagedCircuit { damage: Damage { length: 224, place: 216, count: 1, value: 1 }, refused: Some((8, 212)) },
    DamagedCircuit { damage: Damage { length: 225, place: 0, count: 0, value: 0 }, refused: Some((8, 224)) },
    DamagedCircuit { damage: Damage { length: 240, place: 0, count: 0, value: 0 }, refused: Some((8, 224)) },
    DamagedCircuit { damage: Damage { length: 224, place: 8, count: 1, value: 3 }, refused: Some((8, 212)) },
    DamagedCircuit { damage: Damage { length: 224, place: 8, count: 1, value: 2 }, refused: Some((8, 184)) },
    DamagedCircuit { damage: Damage { length: 224, place: 12, count: 1, value: 2 }, refused: Some((8, 12)) },
    DamagedCircuit { damage: Damage { length: 224, place: 12, count: 1, value: 0 }, refused: Some((8, 12)) },
    DamagedCircuit { damage: Damage { length: 224, place: 64, count: 1, value: 1 }, refused: Some((8, 64)) },
    DamagedCircuit { damage: Damage { length: 224, place: 64, count: 1, value: 3 }, refused: Some((8, 64)) },
    DamagedCircuit { damage: Damage { length: 224, place: 184, count: 1, value: 1 }, refused: Some((8, 184)) },
    DamagedCircuit { damage: Damage { length: 224, place: 184, count: 1, value: 2 }, refused: Some((8, 184)) },
    DamagedCircuit { damage: Damage { length: 224, place: 212, count: 1, value: 1 }, refused: Some((8, 212)) },
    DamagedCircuit { damage: Damage { length: 224, place: 212, count: 1, value: 2 }, refused: Some((8, 212)) },
    DamagedCircuit { damage: Damage { length: 224, place: 16, count: 1, value: 28 }, refused: Some((8, 52)) },
    DamagedCircuit { damage: Damage { length: 224, place: 24, count: 1, value: 9 }, refused: Some((8, 24)) },
    DamagedCircuit { damage: Damage { length: 224, place: 27, count: 1, value: 1 }, refused: Some((8, 24)) },
    DamagedCircuit { damage: Damage { length: 224, place: 28, count: 1, value: 96 }, refused: Some((9, 28)) },
    DamagedCircuit { damage: Damage { length: 224, place: 35, count: 1, value: 1 }, refused: Some((9, 28)) },
    DamagedCircuit { damage: Damage { length: 224, place: 36, count: 1, value: 3 }, refused: Some((8, 36)) },
    DamagedCircuit { damage: Damage { length: 224, place: 40, count: 4, value: 255 }, refused: Some((8, 36)) },
    DamagedCircuit { damage: Damage { length: 224, place: 44, count: 4, value: 255 }, refused: Some((8, 36)) },
    DamagedCircuit { damage: Damage { length: 224, place: 48, count: 1, value: 2 }, refused: Some((8, 36)) },
    DamagedCircuit { damage: Damage { length: 224, place: 48, count: 4, value: 255 }, refused: Some((8, 36)) },
    DamagedCircuit { damage: Damage { length: 224, place: 60, count: 1, value: 1 }, refused: Some((8, 148)) },
    DamagedCircuit { damage: Damage { length: 224, place: 60, count: 1, value: 3 }, refused: Some((8, 184)) },
    DamagedCircuit { damage: Damage { length: 224, place: 60, count: 4, value: 255 }, refused: Some((8, 184)) },
    DamagedCircuit { damage: Damage { length: 224, place: 60, count: 1, value: 0 }, refused: Some((8, 76)) },
    DamagedCircuit { damage: Damage { length: 224, place: 76, count: 1, value: 3 }, refused: Some((10, 108)) },
    DamagedCircuit { damage: Damage { length: 224, place: 76, count: 4, value: 255 }, refused: Some((8, 76)) },
    DamagedCircuit { damage: Damage { length: 224, place: 104, count: 1, value: 0 }, refused: Some((10, 116)) },
    DamagedCircuit { damage: Damage { length: 224, place: 168, count: 1, value: 2 }, refused: Some((8, 168)) },
    DamagedCircuit { damage: Damage { length: 224, place: 168, count: 4, value: 255 }, refused: Some((8, 168)) },
    DamagedCircuit { damage: Damage { length: 224, place: 80, count: 1, value: 4 }, refused: Some((10, 80)) },
    DamagedCircuit { damage: Damage { length: 224, place: 92, count: 4, value: 255 }, refused: Some((10, 92)) },
    DamagedCircuit { damage: Damage { length: 224, place: 172, count: 1, value: 9 }, refused: Some((10, 172)) },
    DamagedCircuit { damage: Damage { length: 224, place: 84, count: 1, value: 97 }, refused: Some((10, 84)) },
    DamagedCircuit { damage: Damage { length: 224, place: 91, count: 1, value: 1 }, refused: Some((10, 84)) },
    DamagedCircuit { damage: Damage { length: 224, place: 96, count: 8, value: 255 }, refused: Some((10, 96)) },
    DamagedCircuit { damage: Damage { length: 224, place: 176, count: 1, value: 98 }, refused: Some((10, 176)) },
    DamagedCircuit { damage: Damage { length: 224, place: 60, count: 1, value: 2 }, refused: None },
    DamagedCircuit { damage: Damage { length: 224, place: 52, count: 8, value: 255 }, refused: None },
];

// Three values over 97, and zeros behind the file's 91 bytes.
#[rattlefmt::skip]
static ASSIGNMENT: [u8; 107] = [119, 116, 110, 115, 2, 0, 0, 0, 3, 0, 0, 0, 1, 0, 0, 0, 16, 0, 0, 0, 0, 0, 0, 0, 8, 0, 0, 0, 97, 0, 0, 0, 0, 0, 0, 0, 3, 0, 0, 0, 2, 0, 0, 0, 24, 0, 0, 0, 0, 0, 0, 0, 1, 0, 0, 0, 0, 0, 0, 0, 5, 0, 0, 0, 0, 0, 0, 0, 96, 0, 0, 0, 0, 0, 0, 0, 9, 0, 0, 0, 3, 0, 0, 0, 0, 0, 0, 0, 1, 2, 3, 0, 0, 0, 0, 0, 0, 0, 0, 0, 0, 0, 0, 0, 0, 0, 0];

#[rattlefmt::skip]
static ASSIGNMENTS: [DamagedAssignment; 37] = [
    DamagedAssignment { damage: Damage { length: 91, place: 0, count: 0, value: 0 }, places: 3, refused: None },
    DamagedAssignment { damage: Damage { length: 91, place: 0, count: 0, value: 0 }, places: 0, refused: Some((5, 0)) },
    DamagedAssignment { damage: Damage { length: 91, place: 0, count: 0, value: 0 }, places: 3073, refused: Some((5, 0)) },
    DamagedAssignment { damage: Damage { length: 91, place: 0, count: 0, value: 0 }, places: 2, refused: Some((11, 36)) },
    DamagedAssignment { damage: Damage { length: 91, place: 0, count: 0, value: 0 }, places: 4, refused: Some((11, 36)) },
    DamagedAssignment { damage: Damage { length: 3, place: 0, count: 0, value: 0 }, places: 3, refused: Some((8, 0)) },
    DamagedAssignment { damage: Damage { length: 91, place: 1, count: 1, value: 0 }, places: 3, refused: Some((8, 0)) },
    DamagedAssignment { damage: Damage { length: 7, place: 0, count: 0, value: 0 }, places: 3, refused: Some((8, 4)) },
    DamagedAssignment { damage: Damage { length: 91, place: 4, count: 1, value: 1 }, places: 3, refused: Some((8, 4)) },
    DamagedAssignment { damage: Damage { length: 9, place: 0, count: 0, value: 0 }, places: 3, refused: Some((8, 8)) },
    DamagedAssignment { damage: Damage { length: 91, place: 8, count: 1, value: 1 }, places: 3, refused: Some((8, 8)) },
    DamagedAssignment { damage: Damage { length: 91, place: 8, count: 1, value: 4 }, places: 3, refused: Some((8, 91)) },
    DamagedAssignment { damage: Damage { length: 91, place: 16, count: 8, value: 255 }, places: 3, refused: Some((8, 12)) },
    DamagedAssignment { damage: Damage { length: 20, place: 0, count: 0, value: 0 }, places: 3, refused: Some((8, 12)) },
    DamagedAssignment { damage: Damage { length: 91, place: 44, count: 8, value: 255 }, places: 3, refused: Some((8, 40)) },
    DamagedAssignment { damage: Damage { length: 90, place: 0, count: 0, value: 0 }, places: 3, refused: Some((8, 76)) },
    DamagedAssignment { damage: Damage { length: 93, place: 0, count: 0, value: 0 }, places: 3, refused: Some((8, 91)) },
    DamagedAssignment { damage: Damage { length: 91, place: 8, count: 1, value: 2 }, places: 3, refused: Some((8, 76)) },
    DamagedAssignment { damage: Damage { length: 91, place: 12, count: 1, value: 3 }, places: 3, refused: Some((8, 12)) },
    DamagedAssignment { damage: Damage { length: 91, place: 40, count: 1, value: 1 }, places: 3, refused: Some((8, 40)) },
    DamagedAssignment { damage: Damage { length: 91, place: 76, count: 1, value: 1 }, places: 3, refused: Some((8, 76)) },
    DamagedAssignment { damage: Damage { length: 91, place: 76, count: 1, value: 2 }, places: 3, refused: Some((8, 76)) },
    DamagedAssignment { damage: Damage { length: 91, place: 24, count: 1, value: 4 }, places: 3, refused: Some((8, 24)) },
    DamagedAssignment { damage: Damage { length: 91, place: 26, count: 1, value: 1 }, places: 3, refused: Some((8, 24)) },
    DamagedAssignment { damage: Damage { length: 91, place: 28, count: 1, value: 11 }, places: 3, refused: Some((9, 28)) },
    DamagedAssignment { damage: Damage { length: 91, place: 34, count: 1, value: 8 }, places: 3, refused: Some((9, 28)) },
    DamagedAssignment { damage: Damage { length: 91, place: 36, count: 1, value: 2 }, places: 3, refused: Some((8, 52)) },
    DamagedAssignment { damage: Damage { length: 91, place: 36, count: 1, value: 4 }, places: 3, refused: Some((8, 52)) },
    DamagedAssignment { damage: Damage { length: 91, place: 36, count: 1, value: 4 }, places: 4, refused: Some((8, 52)) },
    DamagedAssignment { damage: Damage { length: 91, place: 39, count: 1, value: 1 }, places: 3, refused: Some((8, 52)) },
    DamagedAssignment { damage: Damage { length: 91, place: 52, count: 1, value: 0 }, places: 3, refused: Some((10, 52)) },
    DamagedAssignment { damage: Damage { length: 91, place: 52, count: 1, value: 2 }, places: 3, refused: Some((10, 52)) },
    DamagedAssignment { damage: Damage { length: 91, place: 52, count: 1, value: 97 }, places: 3, refused: Some((10, 52)) },
    DamagedAssignment { damage: Damage { length: 91, place: 60, count: 1, value: 97 }, places: 3, refused: Some((10, 60)) },
    DamagedAssignment { damage: Damage { length: 91, place: 68, count: 8, value: 255 }, places: 3, refused: Some((10, 68)) },
    DamagedAssignment { damage: Damage { length: 91, place: 60, count: 7, value: 255 }, places: 3, refused: Some((10, 60)) },
    DamagedAssignment { damage: Damage { length: 0, place: 0, count: 0, value: 0 }, places: 0, refused: Some((5, 0)) },
];

// Headers that have a byte too few and one too many.
#[rattlefmt::skip]
static SHORT_CIRCUIT: [u8; 75] = [114, 49, 99, 115, 1, 0, 0, 0, 2, 0, 0, 0, 1, 0, 0, 0, 39, 0, 0, 0, 0, 0, 0, 0, 8, 0, 0, 0, 97, 0, 0, 0, 0, 0, 0, 0, 4, 0, 0, 0, 1, 0, 0, 0, 1, 0, 0, 0, 1, 0, 0, 0, 4, 0, 0, 0, 0, 0, 0, 0, 2, 0, 0, 2, 0, 0, 0, 0, 0, 0, 0, 0, 0, 0, 0];

#[rattlefmt::skip]
static LONG_CIRCUIT: [u8; 77] = [114, 49, 99, 115, 1, 0, 0, 0, 2, 0, 0, 0, 1, 0, 0, 0, 41, 0, 0, 0, 0, 0, 0, 0, 8, 0, 0, 0, 97, 0, 0, 0, 0, 0, 0, 0, 4, 0, 0, 0, 1, 0, 0, 0, 1, 0, 0, 0, 1, 0, 0, 0, 4, 0, 0, 0, 0, 0, 0, 0, 2, 0, 0, 0, 0, 2, 0, 0, 0, 0, 0, 0, 0, 0, 0, 0, 0];

#[rattlefmt::skip]
static SHORT_ASSIGNMENT: [u8; 59] = [119, 116, 110, 115, 2, 0, 0, 0, 2, 0, 0, 0, 1, 0, 0, 0, 15, 0, 0, 0, 0, 0, 0, 0, 8, 0, 0, 0, 97, 0, 0, 0, 0, 0, 0, 0, 1, 0, 0, 2, 0, 0, 0, 8, 0, 0, 0, 0, 0, 0, 0, 1, 0, 0, 0, 0, 0, 0, 0];

#[rattlefmt::skip]
static LONG_ASSIGNMENT: [u8; 61] = [119, 116, 110, 115, 2, 0, 0, 0, 2, 0, 0, 0, 1, 0, 0, 0, 17, 0, 0, 0, 0, 0, 0, 0, 8, 0, 0, 0, 97, 0, 0, 0, 0, 0, 0, 0, 1, 0, 0, 0, 0, 2, 0, 0, 0, 8, 0, 0, 0, 0, 0, 0, 0, 1, 0, 0, 0, 0, 0, 0, 0];

// What a header with a byte too few or too many is refused by.
const OTHER_HEADER: Option<(u32, usize)> = Some((8, 24));

fn told(refused: Refused) -> (u32, usize) {
    (refused.reason.number(), refused.at)
}

fn opened(bytes: &[u8]) -> Option<(u32, usize)> {
    open(bytes, 97).err().map(told)
}

fn assigned(bytes: &[u8], table: &mut [F97]) -> Option<(u32, usize)> {
    read(bytes, table).err().map(told)
}

impl DamagedCircuit {
    fn is_as_said(&self) -> bool {
        let mut copy = CIRCUIT;
        let bytes = self.damage.applied(&mut copy);
        bytes.is_some_and(|bytes| opened(bytes) == self.refused)
    }
}

impl DamagedAssignment {
    fn is_as_said(&self) -> bool {
        let mut copy = ASSIGNMENT;
        let mut table = [F97::new(0); 3073];
        match (self.damage.applied(&mut copy), table.get_mut(..self.places)) {
            (Some(bytes), Some(table)) => assigned(bytes, table) == self.refused,
            _ => false,
        }
    }
}

fn circuits_as_said() -> bool {
    opened(&SHORT_CIRCUIT) == OTHER_HEADER
        && opened(&LONG_CIRCUIT) == OTHER_HEADER
        && CIRCUITS.iter().all(DamagedCircuit::is_as_said)
}

fn assignments_as_said() -> bool {
    let mut table = [F97::new(0); 1];
    assigned(&SHORT_ASSIGNMENT, &mut table) == OTHER_HEADER
        && assigned(&LONG_ASSIGNMENT, &mut table) == OTHER_HEADER
        && ASSIGNMENTS.iter().all(DamagedAssignment::is_as_said)
}

fn main(rt: HostRuntime) -> Result<(), std::io::Error> {
    println!(rt; "74 constraint files as said: {}", circuits_as_said())?;
    println!(rt; "39 assignment files as said: {}", assignments_as_said())
}
