// A section's payload, and where it begins in the file.
#[derive(Clone, Copy)]
pub struct Payload<'a> {
    pub bytes: &'a [u8],
    pub at: usize,
}

// The payloads of the two sections that a reader looks for.
#[derive(Clone, Copy)]
pub struct Layout<'a> {
    pub header: Payload<'a>,
    pub body: Payload<'a>,
}
