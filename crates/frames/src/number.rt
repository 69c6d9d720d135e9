// Little-endian numbers at the front of bytes, taken off with the rest.
ghost use Rattle.std.specs.Prelude.{◌≡◌, ◌<◌, ◌≤◌, length, drop, MatchOption};
ghost use Rattle.frames.specs.Little.{le4, le8};

// A 4-byte number and what follows it.
pub fn word(bytes: &[u8]) -> Option<(u32, &[u8])>
    ensures { MatchOption result (length bytes.now < 4) (λ p. (4 ≤ length bytes.now) × (p.0 ≡ le4 bytes.now 0) × (p.1.now ≡ drop 4 bytes.now)) }
{
    let [b0, b1, b2, b3, rest @ ..] = bytes else {
        return None;
    };
    Some((u32::from_le_bytes([*b0, *b1, *b2, *b3]), rest))
}

// An 8-byte number and what follows it.
pub fn long(bytes: &[u8]) -> Option<(u64, &[u8])>
    ensures { MatchOption result (length bytes.now < 8) (λ p. (8 ≤ length bytes.now) × (p.0 ≡ le8 bytes.now 0) × (p.1.now ≡ drop 8 bytes.now)) }
{
    let [b0, b1, b2, b3, b4, b5, b6, b7, rest @ ..] = bytes else {
        return None;
    };
    let bytes = [*b0, *b1, *b2, *b3, *b4, *b5, *b6, *b7];
    Some((u64::from_le_bytes(bytes), rest))
}

// A 4-byte number, an 8-byte number and what follows them: a section's head, or an item of a list.
pub fn pair(bytes: &[u8]) -> Option<(u32, u64, &[u8])>
    ensures { MatchOption result (length bytes.now < 12) (λ p. (12 ≤ length bytes.now) × (p.0 ≡ le4 bytes.now 0) × (p.1 ≡ le8 bytes.now 4) × (p.2.now ≡ drop 12 bytes.now)) }
{
    let [w0, w1, w2, w3, v0, v1, v2, v3, v4, v5, v6, v7, rest @ ..] = bytes else {
        return None;
    };
    let word = u32::from_le_bytes([*w0, *w1, *w2, *w3]);
    let long = u64::from_le_bytes([*v0, *v1, *v2, *v3, *v4, *v5, *v6, *v7]);
    Some((word, long, rest))
}
