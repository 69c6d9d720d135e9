// The bytes of a case, of which numbers, elements and lists are taken off the front.
ghost use Rattle.std.specs.Prelude.{◌≡◌, IfOk, vec_len};

use field::field::Field;
use field::file_field::FileField;
use frames::number::{long, word};
use sheet::counts::Counts;
use sheet::entry::Entry;
use std::alloc::{AllocError, Global};
use std::io;

// What a case that is not laid out as it should be ends the program with.
#[derive(Clone, Copy, Debug)]
pub(crate) struct Malformed;

impl From<Malformed> for io::Error {
    fn from(_case: Malformed) -> io::Error {
        io::Error::from(io::ErrorKind::InvalidData)
    }
}

#[derive(Clone, Copy)]
pub(crate) struct Case<'a> {
    rest: &'a [u8],
}

impl<'a> Case<'a> {
    pub(crate) fn new(bytes: &'a [u8]) -> Case<'a> {
        Case { rest: bytes }
    }

    pub(crate) fn is_empty(&self) -> bool {
        self.rest.is_empty()
    }

    // All that is left.
    pub(crate) fn rest(self) -> &'a [u8] {
        self.rest
    }

    // Nothing may be left.
    pub(crate) fn end(self) -> Result<(), Malformed> {
        if self.is_empty() {
            Ok(())
        } else {
            Err(Malformed)
        }
    }

    pub(crate) fn part(&mut self, size: usize) -> Result<&'a [u8], Malformed> {
        let (part, rest) = self.rest.split_at_checked(size).ok_or(Malformed)?;
        self.rest = rest;
        Ok(part)
    }

    // What `read` finds at the front.
    fn take<T, R: Fn(&'a [u8]) -> Option<(T, &'a [u8])>>(&mut self, read: R) -> Result<T, Malformed>
        requires { R.IsAlwaysCallable read }
    {
        let (value, rest) = read(self.rest).ok_or(Malformed)?;
        self.rest = rest;
        Ok(value)
    }

    // A 4-byte number.
    pub(crate) fn word(&mut self) -> Result<u32, Malformed> {
        self.take(word)
    }

    // An 8-byte number.
    pub(crate) fn long(&mut self) -> Result<u64, Malformed> {
        self.take(long)
    }

    // A length of 4 bytes.
    pub(crate) fn length(&mut self) -> Result<usize, Malformed> {
        Ok(self.word()? as usize)
    }

    // The numbers of a sheet.
    pub(crate) fn counts(&mut self) -> Result<Counts, Malformed> {
        Ok(Counts {
            wires: self.word()?,
            publics: self.word()?,
            rows: self.word()?,
        })
    }

    // An element by its coordinates, how many first. In a doubled field coordinate i stands at the i-th power of θ, which is the top.
    pub(crate) fn element<F: FileField>(&mut self) -> Result<F, Malformed> {
        let mut sum = F::zero();
        let mut power = F::one();
        for _ in 0..self.word()? {
            let coordinate = F::element(u64::from(self.word()?)).ok_or(Malformed)?;
            sum = sum.add(power.mul(coordinate));
            power = power.mul(F::top());
        }
        Ok(sum)
    }

    pub(crate) fn entry<F: FileField>(&mut self) -> Result<Entry<F>, Malformed> {
        Ok(Entry {
            matrix: self.word()?,
            row: self.word()?,
            wire: self.word()?,
            coefficient: self.element()?,
        })
    }

    // So many of what `read` takes off the front.
    pub(crate) fn list<T: Drop, R: Fn(&mut Case<'a>) -> Result<T, Malformed>>(
        &mut self,
        heap: Global,
        count: usize,
        read: R,
    ) -> io::Result<Vec<T>>
        requires { R.IsAlwaysCallable read }
        ensures { IfOk result (λ v. vec_len v ≡ count) }
    {
        let mut all = Vec::new(heap);
        for _ in 0..count {
            all.push(read(self)?).map_err(AllocError::from)?;
        }
        Ok(all)
    }
}
