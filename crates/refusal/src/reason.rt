// The reasons of a refusal, by what they mean, each with the number by which it is known outside: `number_of` in specs/.
#[derive(Clone, Copy, PartialEq, Eq, Debug)]
pub enum Refusal {
    // a size is outside its limits
    OutOfLimits = 1,
    // the field has no subgroup of the size that is needed
    NoRoot = 2,
    // a matrix, row or wire is outside, or wire 0 would be assigned
    OutOfRange = 3,
    // every place of the entry table is used
    TableFull = 4,
    // a table or buffer has not its stated length
    WrongLength = 5,
    // value 0 is not one, or a used entry lies outside the head
    Inconsistent = 6,
    // a row does not hold
    RowFails = 7,
    // a file is not laid out as it should be
    BadLayout = 8,
    // a file is over another prime
    OtherPrime = 9,
    // a number in a file is not below its bound
    TooLarge = 10,
    // a file has another count of values than its table has places
    WrongCount = 11,
    // an element is no number of the prime field, so no file can hold it
    NotANumber = 12,
    // an answer does not fit the buffer lent for it
    BufferTooShort = 13,
}
